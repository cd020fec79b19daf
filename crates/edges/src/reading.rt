// The block reader through its plain form: how long the part is that it shows, and where it goes on.
ghost use Rattle.std.specs.Prelude.{◌≡◌, length};
ghost use Rattle.trace.specs.Cycles.{slice_of, part_of_cycle};
ghost use Rattle.reader.specs.Reader.{following_cycle};

use check::expect;

fn shows(block: &[u8], cycle: usize, bytes: usize, next: usize)
    requires { (length (part_of_cycle (slice_of block) cycle).bytes ≡ bytes) × (following_cycle block.now cycle ≡ next) }
{
    expect(reader::shown_at(block, cycle).len() == bytes);
    expect(reader::next_cycle(block, cycle) == next);
}

// "After the last cycle held, or over a lent part that is under 512 bytes or has byte 1 above 7, it shows an empty part and stays."
#[tactic(auto, unfolding(trace::specs::Cycles::shows, trace::specs::Cycles::part_of_cycle, reader::specs::Reader::following_cycle))]
pub(crate) fn walks() {
    let mut block = [0u8; 513];
    block[1] = 7;
    shows(&block[..512], 0, 64, 1);
    shows(&block[..512], 6, 64, 7);
    shows(&block[..512], 7, 0, 7);
    shows(&block[..513], 6, 64, 7);
    shows(&block[..511], 0, 0, 0);
    block[1] = 8;
    shows(&block[..512], 0, 0, 0);
}

// The lines of the list: one cycle's C and F lines, an E line, an R line, each written into the caller's buffer from a named place
// on. Every public function tests what it is given, first the ranges (12), then the room (11), and then lends the part that starts
// at the place to the writer inside, so that no byte before it can change.
#![tactic(auto)]

mod digits;
mod judge;
mod lines;

ghost use Rattle.std.specs.Prelude.{◌≡◌, [], ◌∷◌};
ghost use Rattle.base.specs.Numbers.{room};
ghost use Rattle.listing.specs.Inside.{allowed};
ghost use Rattle.listing.specs.Lines.{finish as line_finish, refusal as line_refusal, cycle_lines};
ghost use Rattle.listing.specs.Writing.{lacks, written, write_outcome};

use base::Reply;
pub use judge::has_room;

// Why a write wrote nothing.
#[derive(Clone, Copy, PartialEq, Eq)]
pub enum Unwritten {
    NoRoom,
    OutOfRange,
}

// The two tests of a write: its values are in range, and there is room.
fn allowed(in_range: bool, buf: &[u8], at: usize) -> Result<(), Unwritten>
    ensures { result ≡ allowed in_range (lacks room buf.now at) }
{
    if !in_range {
        return Err(Unwritten::OutOfRange);
    }
    if !has_room(buf, at, base::ROOM) {
        return Err(Unwritten::NoRoom);
    }
    Ok(())
}

// "first `C cycle input vc` for each credit reaching a sender, by input; then `F cycle output outvc input invc kind payload` for
// each flit out, by output"
pub fn write_cycle(buf: &mut [u8], at: usize, cycle: u64, reply: Reply) -> Result<usize, Unwritten>
    ensures { write_outcome result buf.new ≡ written buf.old at (cycle_lines cycle reply) }
{
    allowed(judge::cycle(cycle, reply), buf, at)?;
    Ok(lines::cycle(&mut buf[at..], cycle, reply))
}

// "Last comes `E cycles flits` (accepted cycles, F lines)"
pub fn write_end(buf: &mut [u8], at: usize, cycles: u64, flits: u64) -> Result<usize, Unwritten>
    ensures { write_outcome result buf.new ≡ written buf.old at (line_finish cycles flits ∷ []) }
{
    allowed(judge::finish(cycles, flits), buf, at)?;
    Ok(lines::finish(&mut buf[at..], cycles, flits))
}

// "or at the first refusal `R number cycle place`, with accepted cycles so far and the port, the field for 1, else 0"
pub fn write_refusal(
    buf: &mut [u8],
    at: usize,
    number: u8,
    cycles: u64,
    place: u8,
) -> Result<usize, Unwritten>
    ensures { write_outcome result buf.new ≡ written buf.old at (line_refusal number cycles place ∷ []) }
{
    allowed(judge::refusal(number, cycles, place), buf, at)?;
    Ok(lines::refusal(&mut buf[at..], number, cycles, place))
}

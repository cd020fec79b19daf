// A place in a file: what was read before the next block.
ghost use Rattle.std.specs.Prelude.{◌≡◌, ◌≤◌};
ghost use Rattle.trace.specs.Blocks.{block_numbers};
ghost use Rattle.trace.specs.Place.{start, can_hold, good_place};

// The number of the next block, and whether the configuration block and the end block were read.
#[derive(Clone, Copy, PartialEq, Eq)]
pub struct Place {
    pub number: u64,
    pub configured: bool,
    pub ended: bool,
}

impl Place {
    // Before the first block of a file.
    pub fn start() -> Self
        ensures { result ≡ start }
    {
        Place {
            number: 0,
            configured: false,
            ended: false,
        }
    }
}

// The block numbers that four bytes have.
const BLOCK_NUMBERS: u64 = 4_294_967_296;

// Whether so many cycle blocks can have brought so many accepted cycles: of the seven at most in each any number.
#[tactic(auto, unfolding(crate::specs::Place::can_hold))]
fn may_hold(blocks: u64, cycles: u64) -> bool
    requires { blocks ≤ block_numbers }
    ensures { result ≡ can_hold blocks cycles }
{
    cycles <= 7 * blocks && cycles <= base::CYCLE_LIMIT
}

// Whether some file leads here with so many cycles accepted, refused ones skipped.
#[tactic(auto, unfolding(crate::specs::Place::good_place))]
pub fn is_good(place: Place, cycles: u64) -> bool
    ensures { result ≡ good_place place cycles }
{
    if !place.configured {
        return !place.ended && place.number == 0 && cycles == 0;
    }
    let without_cycles = if place.ended { 2 } else { 1 };
    place.number <= BLOCK_NUMBERS
        && without_cycles <= place.number
        && may_hold(place.number - without_cycles, cycles)
}

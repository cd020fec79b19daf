// "D 16 is legal, 17 and 0 give 1 with field 3."
ghost use Rattle.std.specs.Prelude.{◌≡◌, Some};
ghost use Rattle.base.specs.Sizes.{sized, illegal_field};

use crate::building::config;
use base::{CONFIGURATION_WRONG, Refusal};
use check::expect;

// The third field is out of its range.
const DEPTH_WRONG: Result<(), Refusal> = Err(Refusal {
    number: CONFIGURATION_WRONG,
    place: 3,
});

#[tactic(auto, using(crate::proofs::Depths::depths))]
pub(crate) fn depths() {
    expect(config(16, 2).judged() == Ok(()));
    expect(config(17, 2).judged() == DEPTH_WRONG);
    expect(config(0, 2).judged() == DEPTH_WRONG);
}

// A fresh router is sound; a refused construction is all zero, and not sound.
#[tactic(auto, unfolding(state::specs::Fresh::built_of), using(crate::proofs::Depths::depths))]
pub(crate) fn constructions() {
    let legal = state::fresh(config(16, 2));
    expect(legal.judged == Ok(()));
    expect(state::is_sound(legal.router));
    refused_construction(17);
    refused_construction(0);
}

#[tactic(auto, unfolding(state::specs::Fresh::built_of), using(crate::proofs::Depths::zero_unsound, state::proofs::Blank::blank_exactly))]
fn refused_construction(depth: u8)
    requires { illegal_field (sized 2 2 depth 2 2 2 1) ≡ Some 3 }
{
    let built = state::fresh(config(depth, 2));
    expect(built.judged == DEPTH_WRONG);
    expect(state::is_blank(built.router));
    expect(!state::is_sound(built.router));
}

// The configuration, and the one test that it is legal.
ghost use Rattle.std.specs.Prelude.{◌≡◌, [], ◌∷◌};
ghost use Rattle.base.specs.Sizes.{no_config, illegal_field, first_illegal, judged};
ghost use Rattle.base.specs.Sizes.{field as numbered};

use crate::bounds::{PORTS, VCS};
use crate::numbers::CONFIGURATION_WRONG;
use crate::refusal::Refusal;

// "Ports P", "VCs per port V", "Input depth D", "Downstream depth E", "Forward delay F", "credit delay B", "Arbiter code".
#[derive(Clone, Copy, PartialEq, Eq)]
pub struct Config {
    pub ports: u8,
    pub vcs: u8,
    pub depth: u8,
    pub downstream: u8,
    pub forward: u8,
    pub back: u8,
    pub arbiter: u8,
}

// Refuses the k-th field where its value is out of its range.
#[tactic(auto, unfolding(crate::specs::Sizes::first_illegal, crate::specs::Sizes::in_range))]
fn field(k: u8, value: u8, least: u8, most: u8) -> Result<(), Refusal>
    ensures { result ≡ judged (first_illegal k (numbered value least most ∷ [])) }
{
    if value < least || most < value {
        return Err(Refusal {
            number: CONFIGURATION_WRONG,
            place: k,
        });
    }
    Ok(())
}

impl Config {
    // No configuration: all zero, as before a file's first block. It is not legal.
    pub fn none() -> Self
        ensures { result ≡ no_config }
    {
        Config {
            ports: 0,
            vcs: 0,
            depth: 0,
            downstream: 0,
            forward: 0,
            back: 0,
            arbiter: 0,
        }
    }

    // Refused with 1 and the first field, counted from 1, that is out of its range.
    #[tactic(auto, unfolding(crate::specs::Sizes::first_illegal, crate::specs::Sizes::illegal_field))]
    pub fn judged(self) -> Result<(), Refusal>
        ensures { result ≡ judged (illegal_field self) }
    {
        field(1, self.ports, 1, PORTS)?;
        field(2, self.vcs, 1, VCS)?;
        field(3, self.depth, 1, 16)?;
        field(4, self.downstream, 1, 16)?;
        field(5, self.forward, 1, 8)?;
        field(6, self.back, 1, 8)?;
        field(7, self.arbiter, 1, 2)
    }
}

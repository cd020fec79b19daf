// The arbiters of each port.
ghost use Rattle.std.specs.Prelude.{◌≡◌};
ghost use Rattle.base.specs.Sizes.{Bounds};
ghost use Rattle.state.specs.Sound.{arbiters_sound, arbiters_unused};
ghost use Rattle.state.specs.Testing.{port_arbiters, no_arbiters};

use arbiter::Arbiter;
use base::{Config, PORT_PLACES};

// The arbiters of a port that there is.
#[tactic(auto, unfolding(crate::specs::Testing::port_arbiters), using(crate::proofs::Made::channels_fit))]
fn are_sound_of(config: Config, vcs: Arbiter<32>, input: Arbiter<8>, output: Arbiter<8>) -> bool
    requires { Bounds 0 config }
    ensures { result ≡ port_arbiters config vcs input output }
{
    let ports = config.ports as u32;
    let vcs_each = config.vcs as u32;
    vcs.is_sound(config.arbiter, ports * vcs_each)
        && input.is_sound(config.arbiter, vcs_each)
        && output.is_sound(config.arbiter, ports)
}

// The arbiters of a port that there is not are zero: just so a round robin over one requester is sound.
#[tactic(auto, unfolding(crate::specs::Testing::no_arbiters), using(crate::proofs::PortArbiters::one_unused))]
fn are_none(vcs: Arbiter<32>, input: Arbiter<8>, output: Arbiter<8>) -> bool
    ensures { result ≡ no_arbiters vcs input output }
{
    vcs.is_sound(1, 1) && input.is_sound(1, 1) && output.is_sound(1, 1)
}

// "round-robin pointers are below their width and matrices are a total order, no requester beating itself"
pub(crate) fn are_sound(
    config: Config,
    vcs: [Arbiter<32>; 8],
    inputs: [Arbiter<8>; 8],
    outputs: [Arbiter<8>; 8],
) -> bool
    requires { Bounds 0 config }
    ensures { result ≡ arbiters_sound config (record { vcs = vcs; inputs = inputs; outputs = outputs }) }
{
    for i in 0..config.ports as usize {
        if !are_sound_of(config, vcs[i], inputs[i], outputs[i]) {
            return false;
        }
    }
    true
}

// Arbiters of ports from P on.
pub(crate) fn are_unused(
    config: Config,
    vcs: [Arbiter<32>; 8],
    inputs: [Arbiter<8>; 8],
    outputs: [Arbiter<8>; 8],
) -> bool
    requires { Bounds 0 config }
    ensures { result ≡ arbiters_unused config (record { vcs = vcs; inputs = inputs; outputs = outputs }) }
{
    for i in config.ports as usize..PORT_PLACES {
        if !are_none(vcs[i], inputs[i], outputs[i]) {
            return false;
        }
    }
    true
}

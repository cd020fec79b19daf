// A fresh router, or the number 1 with the field.
ghost use Rattle.std.specs.Prelude.{◌≡◌, ◌≤◌};
ghost use Rattle.base.specs.Sizes.{illegal_field};
ghost use Rattle.arbiter.specs.Requests.{width};
ghost use Rattle.arbiter.specs.Arbiter.{fresh};
ghost use Rattle.state.specs.Fresh.{filled, fresh_input, fresh_output, no_arbiter, fresh_router, built_of};

use crate::{Arbiters, Binding, InputVc, OutputVc, Router};
use arbiter::Arbiter;
use base::{Config, Refusal};

// What a construction gives: the configuration judged, and the router, which is all zero where the configuration is refused.
#[derive(Clone, Copy, PartialEq, Eq)]
pub struct Built {
    pub judged: Result<(), Refusal>,
    pub router: Router,
}

// So many places with what is used there, the others with what is not.
fn filled<T: Copy, const PLACES: usize>(n: usize, used: T, unused: T) -> [T; PLACES]
    requires { n ≤ PLACES }
    ensures { result ≡ filled n PLACES used unused }
{
    let mut made = [unused; PLACES];
    for k in 0..n {
        made[k] = used;
    }
    made
}

// "each sender credit is D, .. no packet open, nothing bound", of the channels that there are.
fn inputs(channels: usize, credit: u8) -> [InputVc; 32]
    requires { channels ≤ 32 }
    ensures { result ≡ filled channels 32 (fresh_input credit) (fresh_input 0) }
{
    let unused = InputVc {
        binding: Binding::Unbound,
        credit: 0,
        opened: false,
        queued: 0,
    };
    filled(channels, InputVc { credit, ..unused }, unused)
}

// "each output credit E .. nothing bound", of the channels that there are.
fn outputs(channels: usize, credit: u8) -> [OutputVc; 32]
    requires { channels ≤ 32 }
    ensures { result ≡ filled channels 32 (fresh_output credit) (fresh_output 0) }
{
    let unused = OutputVc {
        holder: None,
        credit: 0,
    };
    filled(channels, OutputVc { credit, ..unused }, unused)
}

fn arbiters<const PLACES: usize>(ports: usize, code: u8, n: u32) -> [Arbiter<PLACES>; 8]
    requires { ports ≤ 8 }
    ensures { result ≡ filled ports 8 (fresh PLACES code (width PLACES n)) (no_arbiter PLACES) }
{
    let unused = Arbiter {
        pointer: 0,
        rows: [0u32; PLACES],
    };
    filled(ports, Arbiter::fresh(code, n), unused)
}

// The router of a configuration in which nothing has happened.
fn untouched(config: Config) -> Router
    requires { (config.ports ≤ 8) × (config.vcs ≤ 4) }
    ensures { result ≡ fresh_router config }
{
    let ports = config.ports as usize;
    let vcs = config.vcs as usize;
    let channels = ports * vcs;
    let arbiters = Arbiters {
        vcs: arbiters(ports, config.arbiter, channels as u32),
        inputs: arbiters(ports, config.arbiter, vcs as u32),
        outputs: arbiters(ports, config.arbiter, ports as u32),
    };
    Router {
        config,
        cycle: 0,
        inputs: inputs(channels, config.depth),
        outputs: outputs(channels, config.downstream),
        store: [0u64; 512],
        wire: [0u64; 64],
        home: [0u8; 64],
        arbiters,
    }
}

// The fresh router of a configuration, or 1 with the field and an all-zero router.
#[tactic(auto, unfolding(crate::specs::Fresh::built_of))]
pub fn fresh(config: Config) -> Built
    ensures { result ≡ built_of (illegal_field config) config }
{
    let judged = config.judged();
    if judged.is_err() {
        return Built {
            judged,
            router: untouched(Config::none()),
        };
    }
    Built {
        judged,
        router: untouched(config),
    }
}

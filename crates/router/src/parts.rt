// What travels by value through a cycle, out of a router and back into one. Only this file takes a router apart.
ghost use Rattle.std.specs.Prelude.{◌≡◌};
ghost use Rattle.router.specs.Whole.{parts_of, router_of};

use arbiter::Arbiter;
use base::Config;
use state::{Arbiters, InputVc, OutputVc, Router};

#[derive(Clone, Copy)]
pub struct Parts {
    pub inputs: [InputVc; 32],
    pub outputs: [OutputVc; 32],
    pub vcs: [Arbiter<32>; 8],
    pub ins: [Arbiter<8>; 8],
    pub outs: [Arbiter<8>; 8],
}

pub(crate) fn unpack(router: Router) -> Parts
    ensures { result ≡ parts_of router }
{
    let inputs = router.inputs;
    let outputs = router.outputs;
    let arbiters = router.arbiters;
    let vcs = arbiters.vcs;
    let ins = arbiters.inputs;
    let outs = arbiters.outputs;
    Parts {
        inputs,
        outputs,
        vcs,
        ins,
        outs,
    }
}

// The arrays that were lent go back in too.
pub(crate) fn pack(
    config: Config,
    cycle: u64,
    parts: Parts,
    store: [u64; 512],
    wire: [u64; 64],
    home: [u8; 64],
) -> Router
    ensures { result ≡ router_of config cycle parts store wire home }
{
    let inputs = parts.inputs;
    let outputs = parts.outputs;
    let vcs = parts.vcs;
    let ins = parts.ins;
    let outs = parts.outs;
    Router {
        config,
        cycle,
        inputs,
        outputs,
        store,
        wire,
        home,
        arbiters: Arbiters {
            vcs,
            inputs: ins,
            outputs: outs,
        },
    }
}

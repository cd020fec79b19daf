// Routers by value: a fresh one and one in the middle of its work, and what they are made of. All of it starts from a fresh router.
ghost use Rattle.std.specs.Prelude.{◌≡◌};
ghost use Rattle.state.specs.Fresh.{fresh_output};
ghost use Rattle.base.specs.Sizes.{sized};
ghost use Rattle.base.specs.Reply.{empty_reply};
ghost use Rattle.state.proofs.SoundStates.{turns, unbound};
ghost use Rattle.edges.specs.States.{busy};

use base::{Config, Reply};
use state::{Binding, InVc, InputVc, OutVc, OutputVc, Router};

// Words of flits with payload 7: S and H to output 1, B. On the wire a flit's VC stands above it.
pub(crate) const SINGLE_TO_1: u64 = 4 * 34359738368 + 4294967296 + 7;

pub(crate) const HEAD_TO_1: u64 = 34359738368 + 4294967296 + 7;

pub(crate) const BODY: u64 = 2 * 34359738368 + 7;

pub(crate) const ON_VC_1: u64 = 274877906944;

// P = 2, V = 2, F = 2, B = 2, round robin, with these depths.
pub(crate) fn config(depth: u8, downstream: u8) -> Config
    ensures { result ≡ sized 2 2 depth downstream 2 2 1 }
{
    let mut config = Config::none();
    config.ports = 2;
    config.vcs = 2;
    config.depth = depth;
    config.downstream = downstream;
    config.forward = 2;
    config.back = 2;
    config.arbiter = 1;
    config
}

// The fresh router with D = 3, E = 2.
pub(crate) fn turns() -> Router
    ensures { result ≡ turns }
{
    let built = state::fresh(config(3, 2));
    built.router
}

// An empty reply, field by field, so that what a step answers is not compared with what it may be made of.
pub(crate) fn no_reply() -> Reply
    ensures { result ≡ empty_reply }
{
    Reply {
        senders: [None; 8],
        outputs: [None; 8],
    }
}

// An input VC that is not bound, with these counts.
#[tactic(auto, unfolding(
// the router that it is taken from
state::proofs::SoundStates::turns, state::proofs::SoundStates::config, state::specs::Fresh::fresh_router,
// and the input VC
state::proofs::SoundStates::unbound))]
pub(crate) fn unbound(credit: u8, opened: bool, queued: u8) -> InputVc
    ensures { result ≡ unbound credit opened queued }
{
    let fresh = turns();
    let inputs = fresh.inputs;
    let mut input = inputs[0];
    input.credit = credit;
    input.opened = opened;
    input.queued = queued;
    input
}

// An output VC that nobody holds, with this credit.
#[tactic(auto, unfolding(state::proofs::SoundStates::turns, state::proofs::SoundStates::config, state::specs::Fresh::fresh_router))]
pub(crate) fn output(credit: u8) -> OutputVc
    ensures { result ≡ fresh_output credit }
{
    let fresh = turns();
    let outputs = fresh.outputs;
    let mut output = outputs[0];
    output.credit = credit;
    output
}

// Every phase has something to do: a credit home, a flit that lands, a bound packet in its queue.
pub(crate) fn busy() -> Router
    ensures { result ≡ busy }
{
    let mut router = turns();
    let waiting = unbound(0, true, 3);
    router.inputs[0] = waiting.with_binding(Binding::Bound(OutVc { output: 1, vc: 0 }));
    router.store[0] = HEAD_TO_1;
    router.store[1] = BODY;
    router.store[2] = BODY;
    let free = output(2);
    router.outputs[2] = free.with_holder(Some(InVc { input: 0, vc: 0 }));
    router.inputs[1] = unbound(2, false, 0);
    router.wire[0] = ON_VC_1 + SINGLE_TO_1;
    router.inputs[3] = unbound(2, false, 0);
    router.home[1] = 2;
    router
}

// For each clause of soundness a router that breaks this clause alone, and is refused with 2. The arrays' lengths no struct can break.
ghost use Rattle.std.specs.Prelude.{◌≡◌, false};
ghost use Rattle.state.specs.Sound.{sound};
ghost use Rattle.state.specs.Sound.{the_configuration, the_cycles, the_wire, the_home, the_wire_rest, the_home_rest, the_credits};
ghost use Rattle.state.specs.Sound.{the_queues};
ghost use Rattle.state.specs.Sound.{the_output_credits, the_channels, the_slots, the_names, the_packets, the_arbiters, the_other_arbiters};
ghost use Rattle.edges.specs.States.{broken};

use crate::building::{SINGLE_TO_1, config, output, turns, unbound};
use crate::refusing;
use base::NOT_SOUND;
use state::{InVc, Router};

// E 17
#[tactic(auto, unfolding(state::proofs::SoundStates::config))]
fn configuration() -> Router
    ensures { result ≡ broken the_configuration }
{
    let mut router = turns();
    let wrong = config(3, 17);
    router.config = wrong;
    router
}

// one more than a run has
fn cycles() -> Router
    ensures { result ≡ broken the_cycles }
{
    let mut router = turns();
    router.cycle = 1_000_000_001;
    router
}

// a wire place on a VC that there is not
#[tactic(auto, unfolding(
// the place on the wire
state::proofs::SoundStates::with_wire_place, state::proofs::SoundStates::on,
// and the flit in it
state::proofs::SoundStates::single, base::specs::Flit::flit_of))]
fn wire() -> Router
    ensures { result ≡ broken the_wire }
{
    let mut router = turns();
    router.wire[0] = 2 * 274877906944 + SINGLE_TO_1;
    router
}

// a home place of a VC that there is not
#[tactic(auto, unfolding(state::proofs::SoundStates::with_home_place))]
fn home() -> Router
    ensures { result ≡ broken the_home }
{
    let mut router = turns();
    router.home[0] = 3;
    router
}

// the wire's stage at F
#[tactic(auto, unfolding(
// the place on the wire
state::proofs::SoundStates::with_wire_place, state::proofs::SoundStates::on,
// and the flit in it
state::proofs::SoundStates::single, base::specs::Flit::flit_of))]
fn wire_rest() -> Router
    ensures { result ≡ broken the_wire_rest }
{
    let mut router = turns();
    router.wire[16] = SINGLE_TO_1;
    router
}

// the home line at port P
#[tactic(auto, unfolding(state::proofs::SoundStates::with_home_place))]
fn home_rest() -> Router
    ensures { result ≡ broken the_home_rest }
{
    let mut router = turns();
    router.home[2] = 1;
    router
}

// one credit less than D
#[tactic(auto, unfolding(state::proofs::SoundStates::with_input))]
fn credits() -> Router
    ensures { result ≡ broken the_credits }
{
    let mut router = turns();
    router.inputs[0] = unbound(2, false, 0);
    router
}

// queued to a port that there is not
#[tactic(auto, unfolding(
// the queue's place
state::proofs::SoundStates::with_input, state::proofs::SoundStates::with_slot,
// and the flit in it
state::proofs::SoundStates::single, base::specs::Flit::flit_of))]
fn queues() -> Router
    ensures { result ≡ broken the_queues }
{
    let mut router = turns();
    router.inputs[0] = unbound(2, false, 1);
    router.store[0] = 4 * 34359738368 + 3 * 4294967296 + 7;
    router
}

// an output credit above E
#[tactic(auto, unfolding(state::proofs::SoundStates::with_output))]
fn output_credits() -> Router
    ensures { result ≡ broken the_output_credits }
{
    let mut router = turns();
    router.outputs[0] = output(3);
    router
}

// a credit of a channel beyond P and V
#[tactic(auto, unfolding(state::proofs::SoundStates::with_output))]
fn channels() -> Router
    ensures { result ≡ broken the_channels }
{
    let mut router = turns();
    router.outputs[4] = output(1);
    router
}

// a slot of a channel that there is not
#[tactic(auto, unfolding(state::proofs::SoundStates::with_slot))]
fn slots() -> Router
    ensures { result ≡ broken the_slots }
{
    let mut router = turns();
    router.store[511] = 1;
    router
}

// held and not bound
#[tactic(auto, unfolding(state::proofs::SoundStates::with_output, state::proofs::SoundStates::held))]
fn names() -> Router
    ensures { result ≡ broken the_names }
{
    let mut router = turns();
    let free = output(2);
    router.outputs[2] = free.with_holder(Some(InVc { input: 0, vc: 0 }));
    router
}

// a packet open that nothing has begun
#[tactic(auto, unfolding(state::proofs::SoundStates::with_input))]
fn packets() -> Router
    ensures { result ≡ broken the_packets }
{
    let mut router = turns();
    router.inputs[0] = unbound(3, true, 0);
    router
}

// a pointer equal to its width
fn arbiters() -> Router
    ensures { result ≡ broken the_arbiters }
{
    let mut router = turns();
    let mut arbiters = router.arbiters;
    let vcs = arbiters.vcs;
    let mut wide = vcs[0];
    wide.pointer = 4;
    arbiters.vcs[0] = wide;
    router.arbiters = arbiters;
    router
}

// an arbiter beyond P
fn other_arbiters() -> Router
    ensures { result ≡ broken the_other_arbiters }
{
    let mut router = turns();
    let mut arbiters = router.arbiters;
    let inputs = arbiters.inputs;
    let mut narrow = inputs[2];
    narrow.pointer = 1;
    arbiters.inputs[2] = narrow;
    router.arbiters = arbiters;
    router
}

#[tactic(auto, using(crate::proofs::Unsound::refused_unsound))]
fn refuse(router: Router)
    requires { sound router ≡ false }
{
    let part = [0u8; 64];
    refusing::refused(router, &part, NOT_SOUND, 0);
}

// Each is refused with 2, port 0.
pub(crate) fn refused() {
    refuse(configuration());
    refuse(cycles());
    refuse(wire());
    refuse(home());
    refuse(wire_rest());
    refuse(home_rest());
    refuse(credits());
    refuse(queues());
    refuse(output_credits());
    refuse(channels());
    refuse(slots());
    refuse(names());
    refuse(packets());
    refuse(arbiters());
    refuse(other_arbiters());
}

// Phase 5: VC allocation.
ghost use Rattle.std.specs.Prelude.{◌≡◌, option_map, ℕ, ◌*◌, ◌/◌, ◌%◌, ◌≤◌, ◌<◌, ◌&&◌, length, get_or};
ghost use Rattle.base.specs.Bits.{bit, word_of};
ghost use Rattle.arbiter.specs.Arbiter.{choice};
ghost use Rattle.state.specs.Fresh.{past_arbiter};
ghost use Rattle.state.specs.Sound.{is_unbound, front_is_for};
ghost use Rattle.store.specs.Store.{first_slot};
ghost use Rattle.state.specs.Views.{places, queue_at};
ghost use Rattle.rules.specs.Allocation.{asks, lowest_free_vc, granted, bind_to, held_by, Vcs as BoundVcs, bindings, requester_of};
ghost use Rattle.rules.specs.Allocation.{arbiters_moved};
ghost use Rattle.router.specs.Picks.{is_at, pick_in};
ghost use Rattle.router.specs.Grants.{grant_in, grant_at, inputs_bound, outputs_held};

use crate::{arbitration, channel};
use arbiter::{Arbiter, Requests};
use base::{CHANNEL_PLACES, Config, PORT_PLACES, starts};
use state::{Binding, InVc, InputVc, OutVc, OutputVc};

// What an output grants: the requester that is bound, and the VC that it is bound to.
#[derive(Clone, Copy)]
pub struct Granted {
    pub requester: u8,
    pub vc: u8,
}

// Input VCs and output VCs.
#[derive(Clone, Copy)]
pub struct Vcs {
    pub inputs: [InputVc; 32],
    pub outputs: [OutputVc; 32],
}

// The output at which an input VC asks, if it asks.
#[tactic(auto, using(crate::proofs::Asking::front_none, crate::proofs::Asking::front_is))]
fn asked_by(input: InputVc, x: usize, store: &[u64; 512]) -> Option<u8>
    requires { (x < 32) × (length store.now ≡ 512) }
    ensures { (o : ℕ) → is_at o result ≡ (is_unbound input.binding
        && front_is_for o (queue_at store.now (first_slot x) input.queued)) }
{
    let Binding::Unbound = input.binding else {
        return None;
    };
    if input.queued == 0 {
        return None;
    }
    let front = store::front(x, store);
    if !starts(front.kind()) {
        return None;
    }
    Some(front.destination())
}

// Who asks at each output, as sets: "An unbound one whose front flit is H or S asks at its destination".
#[tactic(auto, unfolding(rules::specs::Allocation::asks), using(crate::proofs::Asking::askers_next))]
pub(crate) fn asking(config: Config, inputs: [InputVc; 32], store: &[u64; 512]) -> [u32; 8]
    requires { (config.ports * config.vcs ≤ 32) × (length store.now ≡ 512) }
    ensures { result ≡ places 8 (λ (o : ℕ). word_of (asks inputs store.now o) (config.ports * config.vcs)) }
{
    let mut sets = [0u32; 8];
    for x in 0..(config.ports as usize) * (config.vcs as usize) {
        let input = inputs[x];
        let Some(output) = asked_by(input, x, store) else {
            continue;
        };
        let o = output as usize;
        if PORT_PLACES <= o {
            continue;
        }
        sets[o] |= 1 << x;
    }
    sets
}

// The lowest-numbered free VC of an output, if one is free.
#[tactic(auto, using(crate::proofs::Granting::free_found, crate::proofs::Granting::free_none, state::proofs::Naming::channel_fits))]
fn free_vc(config: Config, outputs: [OutputVc; 32], o: usize) -> Option<u8>
    requires { (o < config.ports) × (config.ports ≤ 8) × (config.vcs ≤ 4) }
    ensures { result ≡ lowest_free_vc config outputs o }
{
    for w in 0..config.vcs {
        let output = outputs[channel::number(config, o, w as usize)];
        if output.holder.is_none() {
            return Some(w);
        }
    }
    None
}

// "One arbiter per output, P·V wide, .. picks one; it is bound to the lowest-numbered free VC."
#[tactic(auto, unfolding(arbiter::specs::Requests::asks), using(crate::proofs::Choosing::winner_low, state::proofs::Made::channels_fit))]
fn grant(
    config: Config,
    outputs: [OutputVc; 32],
    arbiter: Arbiter<32>,
    o: usize,
    set: u32,
) -> Option<Granted>
    requires { (o < config.ports) × (config.ports ≤ 8) × (config.vcs ≤ 4) }
    ensures { option_map grant_in result ≡ granted (lowest_free_vc config outputs o)
        (choice 32 config.arbiter (config.ports * config.vcs) (bit set) arbiter) }
{
    let vc = free_vc(config, outputs, o)?;
    let n = (config.ports as u32) * (config.vcs as u32);
    let x = arbiter.choose(config.arbiter, n, Requests { set })?;
    Some(Granted {
        requester: x as u8,
        vc,
    })
}

// What each output grants; where nobody asks no arbiter is copied. Nothing is bound yet.
#[tactic(auto, using(crate::proofs::Granting::granting_none))]
pub(crate) fn grants(
    config: Config,
    outputs: [OutputVc; 32],
    vcs: [Arbiter<32>; 8],
    sets: [u32; 8],
) -> [Option<Granted>; 8]
    requires { (config.ports ≤ 8) × (config.vcs ≤ 4) }
    ensures { (o : ℕ) → o < config.ports → grant_at result o
        ≡ granted (lowest_free_vc config outputs o) (choice 32 config.arbiter (config.ports * config.vcs) (bit (get_or sets o 0))
        (get_or vcs o past_arbiter)) }
{
    let mut made = [None; 8];
    for o in 0..config.ports as usize {
        let set = sets[o];
        if set == 0 {
            continue;
        }
        let arbiter = vcs[o];
        made[o] = grant(config, outputs, arbiter, o, set);
    }
    made
}

// Requester i·V+v is VC v of input i.
fn requester(config: Config, x: u8) -> InVc
    requires { (1 ≤ config.vcs) × (config.vcs ≤ 4) }
    ensures { result ≡ record { input = x / config.vcs; vc = x % config.vcs } }
{
    InVc {
        input: x / config.vcs,
        vc: x % config.vcs,
    }
}

fn bound(input: InputVc, output: u8, vc: u8) -> InputVc
    ensures { result ≡ bind_to output vc input }
{
    input.with_binding(Binding::Bound(OutVc { output, vc }))
}

fn held(output: OutputVc, by: InVc) -> OutputVc
    ensures { result ≡ held_by by.input by.vc output }
{
    output.with_holder(Some(by))
}

// Each input VC that is bound names its output VC.
#[tactic(auto, unfolding(crate::specs::Grants::inputs_bound), using(crate::proofs::Binding::inputs_none))]
fn bind_inputs(config: Config, before: [InputVc; 32], made: [Option<Granted>; 8]) -> [InputVc; 32]
    requires { config.ports ≤ 8 }
    ensures { result ≡ inputs_bound config (grant_at made) before }
{
    let mut inputs = before;
    for o in 0..config.ports as usize {
        let Some(given) = made[o] else {
            continue;
        };
        let x = given.requester as usize;
        if CHANNEL_PLACES <= x {
            continue;
        }
        let input = inputs[x];
        inputs[x] = bound(input, o as u8, given.vc);
    }
    inputs
}

// Each output VC that is held names its input VC.
#[tactic(auto, unfolding(crate::specs::Grants::outputs_held), using(crate::proofs::Binding::outputs_none))]
fn bind_outputs(
    config: Config,
    before: [OutputVc; 32],
    made: [Option<Granted>; 8],
) -> [OutputVc; 32]
    requires { (config.ports ≤ 8) × (1 ≤ config.vcs) × (config.vcs ≤ 4) }
    ensures { result ≡ outputs_held config (grant_at made) before }
{
    let mut outputs = before;
    for o in 0..config.ports as usize {
        let Some(given) = made[o] else {
            continue;
        };
        let y = channel::number(config, o, given.vc as usize);
        if CHANNEL_PLACES <= y {
            continue;
        }
        let output = outputs[y];
        outputs[y] = held(output, requester(config, given.requester));
    }
    outputs
}

// Input VC and output VC name each other.
pub(crate) fn bind(config: Config, before: Vcs, made: [Option<Granted>; 8]) -> Vcs
    requires { (config.ports ≤ 8) × (1 ≤ config.vcs) × (config.vcs ≤ 4) }
    ensures { ◌≡◌ {A = BoundVcs} (record { inputs = result.inputs; outputs = result.outputs })
        (bindings config (grant_at made) (record { inputs = before.inputs; outputs = before.outputs })) }
{
    let was_inputs = before.inputs;
    let was_outputs = before.outputs;
    let inputs = bind_inputs(config, was_inputs, made);
    let outputs = bind_outputs(config, was_outputs, made);
    Vcs { inputs, outputs }
}

// The requester that each output picked.
fn requesters(made: [Option<Granted>; 8]) -> [Option<u8>; 8]
    ensures { (o : ℕ) → o < 8 → pick_in result o ≡ requester_of (grant_at made o) }
{
    let mut picks = [None; 8];
    for o in 0..PORT_PLACES {
        let given = made[o];
        picks[o] = given.map(|given| given.requester);
    }
    picks
}

// Each output's VC arbiter after its own pick.
#[tactic(auto, using(crate::proofs::Moving::moved_same))]
pub(crate) fn move_on(
    config: Config,
    before: [Arbiter<32>; 8],
    made: [Option<Granted>; 8],
) -> [Arbiter<32>; 8]
    requires { (config.ports ≤ 8) × (config.vcs ≤ 4) }
    ensures { result ≡ arbiters_moved 32 config (config.ports * config.vcs) (λ (o : ℕ). requester_of (grant_at made o)) before }
{
    let n = (config.ports as u32) * (config.vcs as u32);
    arbitration::move_on(config, n, before, requesters(made))
}

// Phase 6: switch allocation.
ghost use Rattle.std.specs.Prelude.{◌≡◌, false, List, ℕ, ◌*◌, ◌/◌, ◌^◌, ◌≤◌, ◌<◌, length, get_or};
ghost use Rattle.base.specs.Bits.{bit, word_of};
ghost use Rattle.arbiter.specs.Arbiter.{choice};
ghost use Rattle.state.specs.Fresh.{fresh_input, past_arbiter};
ghost use Rattle.rules.specs.Allocation.{is_ready, is_for, picked};
ghost use Rattle.router.specs.Picks.{pick_in, asks_in, is_at, has_credit};

use crate::channel;
use arbiter::{Arbiter, Requests};
use base::{CHANNEL_PLACES, Config, PORT_PLACES};
use state::{Binding, InputVc, OutputVc};

// "A bound input VC (also one bound just now) is ready when its queue is not empty and its output VC has credit.": the channel whose credit
// decides, if it is bound and its queue is not empty.
#[tactic(auto, unfolding(rules::specs::Allocation::is_ready))]
fn waits_for(config: Config, input: InputVc) -> Option<usize>
    ensures { (outputs : List OutputVc) → length outputs ≡ 32 → is_ready config outputs input
        ≡ has_credit outputs result }
{
    if input.queued == 0 {
        return None;
    }
    let Binding::Bound(to) = input.binding else {
        return None;
    };
    Some(channel::number(config, to.output as usize, to.vc as usize))
}

// Who is ready, as a set of channels.
#[tactic(auto, using(crate::proofs::Words::words, crate::proofs::Readiness::no_credit_past))]
pub(crate) fn ready(config: Config, inputs: [InputVc; 32], outputs: [OutputVc; 32]) -> u32
    requires { config.ports * config.vcs ≤ 32 }
    ensures { result ≡ word_of (λ (x : ℕ). is_ready config outputs (get_or inputs x (fresh_input 0))) (config.ports * config.vcs) }
{
    let mut set: u32 = 0;
    for x in 0..(config.ports as usize) * (config.vcs as usize) {
        let input = inputs[x];
        let Some(y) = waits_for(config, input) else {
            continue;
        };
        if CHANNEL_PLACES <= y {
            continue;
        }
        let output = outputs[y];
        if output.credit == 0 {
            continue;
        }
        set |= 1 << x;
    }
    set
}

// A pick among a few requesters.
#[tactic(auto, unfolding(arbiter::specs::Requests::asks), using(crate::proofs::Choosing::winner_low))]
fn pick(arbiter: Arbiter<8>, code: u8, n: u32, set: u32) -> Option<u8>
    ensures { result ≡ choice 8 code n (bit set) arbiter }
{
    let w = arbiter.choose(code, n, Requests { set })?;
    Some(w as u8)
}

// "Each input's V-wide arbiter picks one ready VC."
#[tactic(auto, using(crate::proofs::Choosing::unshifted))]
pub(crate) fn pick_inputs(config: Config, ready: u32, arbiters: [Arbiter<8>; 8]) -> [Option<u8>; 8]
    requires { (config.ports ≤ 8) × (config.vcs ≤ 4) }
    ensures { (i : ℕ) → i < config.ports → pick_in result i
        ≡ choice 8 config.arbiter config.vcs (bit (ready / 2 ^ (i * config.vcs))) (get_or arbiters i past_arbiter) }
{
    let n = config.vcs as u32;
    let mut picks = [None; 8];
    let mut left = ready;
    for i in 0..config.ports as usize {
        let arbiter = arbiters[i];
        picks[i] = pick(arbiter, config.arbiter, n, left);
        left = left >> n;
    }
    picks
}

// The output that an input VC is bound to, if it is bound.
fn output_of(input: InputVc) -> Option<u8>
    ensures { (o : ℕ) → is_at o result ≡ is_for o input.binding }
{
    let Binding::Bound(to) = input.binding else {
        return None;
    };
    Some(to.output)
}

// "Switch requests form a table, one row for each input and one column for each output": true where the input asks.
#[tactic(auto, using(crate::proofs::Columns::rows_empty))]
pub(crate) fn table_of(
    config: Config,
    inputs: [InputVc; 32],
    picks: [Option<u8>; 8],
) -> [[bool; 8]; 8]
    requires { config.ports ≤ 8 }
    ensures by_index { (i o : ℕ) → i < config.ports → o < 8 → asks_in result i o ≡ picked config inputs i o (pick_in picks i) }
    ensures beyond { (i o : ℕ) → config.ports ≤ i → asks_in result i o ≡ false }
{
    let mut table = [[false; 8]; 8];
    for i in 0..config.ports as usize {
        let Some(pick) = picks[i] else {
            continue;
        };
        let x = channel::number(config, i, pick as usize);
        if CHANNEL_PLACES <= x {
            continue;
        }
        let input = inputs[x];
        let Some(output) = output_of(input) else {
            continue;
        };
        let o = output as usize;
        if PORT_PLACES <= o {
            continue;
        }
        table[i][o] = true;
    }
    table
}

// The inputs that ask at an output: one column of the table.
#[tactic(auto, using(crate::proofs::Words::words))]
fn column(table: &[[bool; 8]; 8], o: usize) -> u32
    requires { o < 8 }
    ensures { result ≡ word_of (λ (i : ℕ). asks_in table.now i o) 8 }
{
    let mut set: u32 = 0;
    for i in 0..PORT_PLACES {
        if table[i][o] {
            set |= 1 << i;
        }
    }
    set
}

// "each output's P-wide arbiter picks one row."
pub(crate) fn pick_outputs(
    config: Config,
    table: &[[bool; 8]; 8],
    arbiters: [Arbiter<8>; 8],
) -> [Option<u8>; 8]
    requires { config.ports ≤ 8 }
    ensures { (o : ℕ) → o < config.ports → pick_in result o
        ≡ choice 8 config.arbiter config.ports (λ (i : ℕ). asks_in table.now i o)
        (get_or arbiters o past_arbiter) }
{
    let n = config.ports as u32;
    let mut picks = [None; 8];
    for o in 0..config.ports as usize {
        let arbiter = arbiters[o];
        picks[o] = pick(arbiter, config.arbiter, n, column(table, o));
    }
    picks
}

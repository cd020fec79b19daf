// Phases 1 to 4: what comes in.
ghost use Rattle.std.specs.Prelude.{◌≡◌, ◌-◌, ◌≤◌, ◌<◌, ◌++◌, length, drop, replicate};
ghost use Rattle.state.specs.Views.{wire_vc};
ghost use Rattle.rules.specs.Ports.{named};
ghost use Rattle.rules.specs.Intake.{sender_paid, senders_paid, reported, output_paid, outputs_paid, one_more_queued};
ghost use Rattle.rules.specs.Intake.{Queues, landings, Senders, offer_taken, offers};
ghost use Rattle.router.specs.Fitting.{CreditsFit, QueuesFit, OutputCreditsFit};

use crate::rows::Row;
use crate::{channel, counts, rows};
use base::{CHANNEL_PLACES, Config, Flit, ends};
use state::{InputVc, OutputVc};

fn with_one_credit_more(input: InputVc) -> InputVc
    requires { input.credit < 255 }
    ensures { result ≡ sender_paid input }
{
    InputVc {
        credit: input.credit + 1,
        ..input
    }
}

// Phase 1: "Credits that left an input B cycles ago reach its sender; each raises that VC's sender credit by one".
#[tactic(auto, unfolding(rules::specs::Intake::senders_paid), using(crate::proofs::Paying::sender_turns))]
pub(crate) fn pay_senders(config: Config, before: [InputVc; 32], home: &[u8; 64]) -> [InputVc; 32]
    requires { (config.ports ≤ 8) × CreditsFit 16 before }
    ensures { result ≡ senders_paid config home.now before }
{
    let mut inputs = before;
    for i in 0..config.ports as usize {
        let place = counts::wide(home[i]);
        if place == 0 {
            continue;
        }
        let x = channel::number(config, i, place - 1);
        if CHANNEL_PLACES <= x {
            continue;
        }
        let input = inputs[x];
        inputs[x] = with_one_credit_more(input);
    }
    inputs
}

fn reached(place: u8) -> Option<u8>
    ensures { result ≡ named place }
{
    if place == 0 { None } else { Some(place - 1) }
}

// Phase 1: ".. and is reported."
#[tactic(auto, unfolding(rules::specs::Intake::reported), using(rules::proofs::Folds::over_none, crate::proofs::Paying::report_again))]
pub(crate) fn report(config: Config, home: &[u8; 64]) -> [Option<u8>; 8]
    requires { config.ports ≤ 8 }
    ensures { result ≡ reported config home.now }
{
    let mut senders = [None; 8];
    for i in 0..config.ports as usize {
        senders[i] = reached(home[i]);
    }
    senders
}

fn with_one_more_back(output: OutputVc) -> OutputVc
    requires { output.credit < 255 }
    ensures { result ≡ output_paid output }
{
    OutputVc {
        credit: output.credit + 1,
        ..output
    }
}

// Phase 2: "Each credit from downstream raises the named output VC's credit by one."
#[tactic(auto, unfolding(rules::specs::Intake::outputs_paid), using(crate::proofs::Paying::output_turns))]
pub(crate) fn pay_outputs(config: Config, before: [OutputVc; 32], part: &[u8]) -> [OutputVc; 32]
    requires { (config.ports ≤ 8) × (length part.now ≡ 64) × OutputCreditsFit 16 before }
    ensures { result ≡ outputs_paid config part.now before }
{
    let mut outputs = before;
    for o in 0..config.ports as usize {
        let credit = counts::wide(rows::credit_of(part, o));
        if credit == 0 {
            continue;
        }
        let y = channel::number(config, o, credit - 1);
        if CHANNEL_PLACES <= y {
            continue;
        }
        let output = outputs[y];
        outputs[y] = with_one_more_back(output);
    }
    outputs
}

fn with_one_more_queued(input: InputVc) -> InputVc
    requires { input.queued < 255 }
    ensures { result ≡ one_more_queued input }
{
    InputVc {
        queued: input.queued + 1,
        ..input
    }
}

// Phase 3: "A flit accepted F cycles ago joins the end of its VC queue."
#[tactic(auto, unfolding(rules::specs::Intake::landings), using(rules::proofs::Folds::over_none, state::proofs::Exact::length_any))]
pub(crate) fn land(
    config: Config,
    before: [InputVc; 32],
    wire: &[u64; 64],
    store: &mut [u64; 512],
) -> [InputVc; 32]
    requires { (config.ports ≤ 8) × QueuesFit 16 before }
    ensures { ◌≡◌ {A = Queues} (record { inputs = result; store = store.new })
        (landings config wire.now (record { inputs = before; store = store.old })) }
{
    let mut inputs = before;
    for i in 0..config.ports as usize {
        let place = wire[i];
        if place == 0 {
            continue;
        }
        let x = channel::number(config, i, vc_on_wire(place));
        if CHANNEL_PLACES <= x {
            continue;
        }
        let input = inputs[x];
        let flit = Flit {
            word: place % 274877906944,
        };
        store::push(x, input.queued, flit, store);
        inputs[x] = with_one_more_queued(input);
    }
    inputs
}

// The VC above a flit on the wire.
fn vc_on_wire(place: u64) -> usize
    ensures value { result ≡ wire_vc place }
    ensures small { result < 4294967296 }
{
    (place / 274877906944) as usize
}

// A line a cycle later, the wire or the home line: eight ports to a place, the oldest first.
#[tactic(auto, using(crate::proofs::Advancing::line_advanced))]
pub(crate) fn advance<T: Copy>(line: &mut [T], empty: T)
    requires { length line.old ≡ 64 }
    ensures { line.new ≡ drop 8 line.old ++ replicate 8 empty }
{
    line.copy_within(8.., 0);
    line[56..].copy_from_slice(&[empty; 8]);
}

// An input VC after its sender has sent a flit of this kind.
fn after_offer(input: InputVc, kind: u8) -> InputVc
    ensures { result ≡ offer_taken kind input }
{
    InputVc {
        credit: counts::less_one(input.credit),
        opened: !ends(kind),
        ..input
    }
}

// Phase 4: "The step acts on ports that bring a flit and passes over the rest. A taken flit costs one sender credit and enters the wire."
#[tactic(auto, unfolding(rules::specs::Intake::offers), using(rules::proofs::Folds::over_none, state::proofs::Exact::length_any))]
pub(crate) fn take_offers(
    config: Config,
    before: [InputVc; 32],
    part: &[u8],
    wire: &mut [u64; 64],
) -> [InputVc; 32]
    requires { (config.ports ≤ 8) × (1 ≤ config.forward) × (config.forward ≤ 8) × (length part.now ≡ 64) }
    ensures { ◌≡◌ {A = Senders} (record { inputs = result; wire = wire.new })
        (offers config part.now (record { inputs = before; wire = wire.old })) }
{
    let mut inputs = before;
    for i in 0..config.ports as usize {
        let row = rows::row_of(part, i);
        let Row::Brings(offer) = row else {
            continue;
        };
        let flit = offer.flit;
        let vc = counts::wide(offer.vc);
        wire[8 * (config.forward as usize - 1) + i] = (vc as u64) * 274877906944 + flit.word;
        let x = channel::number(config, i, vc);
        if CHANNEL_PLACES <= x {
            continue;
        }
        let input = inputs[x];
        inputs[x] = after_offer(input, rows::kind_of(part, i));
    }
    inputs
}

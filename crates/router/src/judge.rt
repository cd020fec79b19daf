// A cycle judged before anything moves: "10, then 3, 6, 4, 5, each over all ports in rising order before the next number", and of 3 the
// part's length first.
ghost use Rattle.std.specs.Prelude.{◌≡◌, ℕ, ◌≤◌, ◌<◌, length};
ghost use Rattle.base.specs.Search.{first_from};
ghost use Rattle.rules.specs.Numbers.{row_wrong, credit_past_room, out_of_turn, no_sender_credit, first_of, rules_for};
ghost use Rattle.base.specs.Refusal.{refusing};

use crate::{channel, counts, rows};
use base::{
    CHANNEL_PLACES, CREDIT_PAST_ROOM, CYCLE_LIMIT, Config, NO_SENDER_CREDIT, OUT_OF_TURN,
    PORT_PLACES, ROW_WRONG, RUN_FULL, Refusal, starts,
};
use state::{InputVc, OutputVc};

// The first port of each test, if there is one. One input or output VC is read for a port, not a copy of all handed on.

// 3: "row breaks the byte rules above, or VC, destination or credit too large"
#[tactic(auto, using(crate::proofs::FirstPort::no_port_found))]
fn first_wrong_row(config: Config, part: &[u8]) -> Option<usize>
    requires { length part.now ≡ 64 }
    ensures { result ≡ first_from (row_wrong config part.now) 8 0 }
{
    for i in 0..PORT_PLACES {
        if rows::breaks(config, part, i) {
            return Some(i);
        }
    }
    None
}

// 6: "downstream credit where that output VC already has E"
#[tactic(auto, unfolding(rules::specs::Numbers::credit_past_room), using(crate::proofs::FirstPort::no_port_found))]
fn first_past_room(config: Config, outputs: [OutputVc; 32], part: &[u8]) -> Option<usize>
    requires { (config.ports ≤ 8) × (length part.now ≡ 64) }
    ensures { result ≡ first_from (credit_past_room config outputs part.now) config.ports 0 }
{
    for o in 0..config.ports as usize {
        let credit = counts::wide(rows::credit_of(part, o));
        if credit == 0 {
            continue;
        }
        let y = channel::number(config, o, credit - 1);
        if CHANNEL_PLACES <= y {
            if config.downstream == 0 {
                return Some(o);
            }
            continue;
        }
        if outputs[y].credit == config.downstream {
            return Some(o);
        }
    }
    None
}

// 4: "B or T with no packet open at that sender VC, or H or S with one open"
#[tactic(auto, unfolding(rules::specs::Numbers::out_of_turn), using(crate::proofs::FirstPort::no_port_found))]
fn first_out_of_turn(config: Config, inputs: [InputVc; 32], part: &[u8]) -> Option<usize>
    requires { (config.ports ≤ 8) × (length part.now ≡ 64) }
    ensures { result ≡ first_from (out_of_turn config inputs part.now) config.ports 0 }
{
    for i in 0..config.ports as usize {
        let kind = rows::kind_of(part, i);
        if kind == 0 {
            continue;
        }
        let x = channel::number(config, i, counts::wide(rows::vc_of(part, i)));
        let first = starts(kind);
        if CHANNEL_PLACES <= x {
            if first {
                continue;
            }
            return Some(i);
        }
        if first == inputs[x].opened {
            return Some(i);
        }
    }
    None
}

// 5: "no sender credit, after phase 1"
#[tactic(auto, unfolding(rules::specs::Numbers::no_sender_credit), using(crate::proofs::FirstPort::no_port_found))]
fn first_without_credit(config: Config, paid: [InputVc; 32], part: &[u8]) -> Option<usize>
    requires { (config.ports ≤ 8) × (length part.now ≡ 64) }
    ensures { result ≡ first_from (no_sender_credit config paid part.now) config.ports 0 }
{
    for i in 0..config.ports as usize {
        if rows::kind_of(part, i) == 0 {
            continue;
        }
        let x = channel::number(config, i, counts::wide(rows::vc_of(part, i)));
        if CHANNEL_PLACES <= x {
            return Some(i);
        }
        if paid[x].credit == 0 {
            return Some(i);
        }
    }
    None
}

fn refusing(number: u8, port: usize) -> Result<(), Refusal>
    requires { port < 8 }
    ensures { result ≡ refusing number port }
{
    Err(Refusal {
        number,
        place: port as u8,
    })
}

// `inputs` are those before the cycle, `paid` those after phase 1.
#[tactic(auto, unfolding(rules::specs::Numbers::first_of, base::specs::Search::first_from), using(crate::proofs::RuleOrder::no_ports))]
pub(crate) fn judge(
    config: Config,
    cycle: u64,
    inputs: [InputVc; 32],
    paid: [InputVc; 32],
    outputs: [OutputVc; 32],
    part: &[u8],
) -> Result<(), Refusal>
    requires { config.ports ≤ 8 }
    ensures { result ≡ first_of (rules_for config cycle inputs paid outputs part.now) }
{
    if CYCLE_LIMIT <= cycle {
        return refusing(RUN_FULL, 0);
    }
    if part.len() != 64 {
        return refusing(ROW_WRONG, 0);
    }
    if let Some(port) = first_wrong_row(config, part) {
        return refusing(ROW_WRONG, port);
    }
    if let Some(port) = first_past_room(config, outputs, part) {
        return refusing(CREDIT_PAST_ROOM, port);
    }
    if let Some(port) = first_out_of_turn(config, inputs, part) {
        return refusing(OUT_OF_TURN, port);
    }
    if let Some(port) = first_without_credit(config, paid, part) {
        return refusing(NO_SENDER_CREDIT, port);
    }
    Ok(())
}

// What a write tests before its first byte: 12, that each value of its lines is in its range; 11, that there is room.
#![tactic(auto, unfolding(
// a line's values
crate::specs::Lines::printable, crate::specs::Lines::values_of,
// and their ranges
crate::specs::Lines::all_in_range, base::specs::Sizes::in_range))]

ghost use Rattle.std.specs.Prelude.{◌≡◌, not, [], ◌∷◌};
ghost use Rattle.base.specs.Sizes.{most_ports};
ghost use Rattle.listing.specs.Lines.{credit as line_credit, flit as line_flit, finish as line_finish, refusal as line_refusal};
ghost use Rattle.listing.specs.Lines.{printable, by_port, credit_line, flit_line, cycle_lines};
ghost use Rattle.listing.specs.Writing.{lacks};

use base::{Departure, Reply};

// Not "fewer than .. bytes from the named place, or place past the end": of as many as are asked for.
pub fn has_room(buf: &[u8], at: usize, asked: usize) -> bool
    ensures { result ≡ not (lacks asked buf.now at) }
{
    at <= buf.len() && asked <= buf.len() - at
}

fn credit(cycle: u64, input: u8, vc: u8) -> bool
    ensures { result ≡ printable (line_credit cycle input vc ∷ []) }
{
    cycle < base::CYCLE_LIMIT && input < base::PORTS && vc < base::VCS
}

fn flit(cycle: u64, output: u8, d: Departure) -> bool
    ensures { result ≡ printable (line_flit cycle output d ∷ []) }
{
    cycle < base::CYCLE_LIMIT
        && output < base::PORTS
        && d.out_vc < base::VCS
        && d.input < base::PORTS
        && d.vc < base::VCS
        && base::HEAD <= d.kind
        && d.kind <= base::SINGLE
}

#[tactic(auto, unfolding(crate::specs::Lines::by_port, crate::specs::Lines::printable), using(crate::proofs::Ports::one_more))]
fn credits(cycle: u64, reply: Reply) -> bool
    ensures { result ≡ printable (by_port (credit_line cycle reply) most_ports) }
{
    for input in 0..base::PORTS {
        if let Some(vc) = reply.senders[input as usize] {
            if !credit(cycle, input, vc) {
                return false;
            }
        }
    }
    true
}

#[tactic(auto, unfolding(crate::specs::Lines::by_port, crate::specs::Lines::printable), using(crate::proofs::Ports::one_more))]
fn flits(cycle: u64, reply: Reply) -> bool
    ensures { result ≡ printable (by_port (flit_line cycle reply) most_ports) }
{
    for output in 0..base::PORTS {
        if let Some(d) = reply.outputs[output as usize] {
            if !flit(cycle, output, d) {
                return false;
            }
        }
    }
    true
}

#[tactic(auto, using(crate::proofs::Ports::cycle_printable))]
pub(crate) fn cycle(cycle: u64, reply: Reply) -> bool
    ensures { result ≡ printable (cycle_lines cycle reply) }
{
    credits(cycle, reply) && flits(cycle, reply)
}

pub(crate) fn finish(cycles: u64, flits: u64) -> bool
    ensures { result ≡ printable (line_finish cycles flits ∷ []) }
{
    cycles <= base::CYCLE_LIMIT && flits <= base::FLIT_LIMIT
}

pub(crate) fn refusal(number: u8, cycles: u64, place: u8) -> bool
    ensures { result ≡ printable (line_refusal number cycles place ∷ []) }
{
    1 <= number
        && number <= base::LARGEST_NUMBER
        && cycles <= base::CYCLE_LIMIT
        && place <= base::LARGEST_PLACE
}

// The lines, byte by byte, from a place of the lent part on. What is written is in range and there is room: `judge` has tested it.
ghost use Rattle.std.specs.Prelude.{◌≡◌, true, [], ◌∷◌, ◌+◌, ◌≤◌, ◌<◌, length};
ghost use Rattle.base.specs.Numbers.{room};
ghost use Rattle.base.specs.Sizes.{most_ports};
ghost use Rattle.listing.specs.Digits.{decimal};
ghost use Rattle.listing.specs.Inside.{Laid};
ghost use Rattle.listing.specs.Lines.{credit as line_credit, flit as line_flit, finish as line_finish, refusal as line_refusal};
ghost use Rattle.listing.specs.Lines.{print, text, printable, by_port, credit_line, flit_line, cycle_lines};

use crate::digits;
use crate::digits::Spelling;
use base::{Departure, Reply};

// "C cycle" or "F cycle".
fn start(out: &mut [u8], at: usize, letter: u8, cycle: &Spelling) -> usize
    requires { (cycle.now.number < 1000000000) × (at + 11 ≤ length out.old) }
    ensures { Laid out.old at (letter ∷ 32 ∷ decimal cycle.now.number) out.new result × (result ≤ at + 11) }
{
    out[at] = letter;
    out[at + 1] = b' ';
    cycle.write(out, at + 2)
}

// "C cycle input vc": a port and a VC are one digit.
fn credit(out: &mut [u8], at: usize, cycle: &Spelling, input: u8, vc: u8) -> usize
    requires { (printable (line_credit cycle.now.number input vc ∷ []) ≡ true) × (at + 16 ≤ length out.old) }
    ensures { Laid out.old at (print (line_credit cycle.now.number input vc)) out.new result × (result ≤ at + 16) }
{
    let q = start(out, at, b'C', cycle);
    out[q] = b' ';
    out[q + 1] = 48 + input;
    out[q + 2] = b' ';
    out[q + 3] = 48 + vc;
    out[q + 4] = b'\n';
    q + 5
}

// "F cycle output outvc input invc kind payload"
#[tactic(auto, using(crate::proofs::Decimals::hex_length))]
fn flit(out: &mut [u8], at: usize, cycle: &Spelling, output: u8, d: Departure) -> usize
    requires { (printable (line_flit cycle.now.number output d ∷ []) ≡ true) × (at + 31 ≤ length out.old) }
    ensures { Laid out.old at (print (line_flit cycle.now.number output d)) out.new result × (result ≤ at + 31) }
{
    let q = start(out, at, b'F', cycle);
    let kind = base::letter(d.kind);
    out[q] = b' ';
    out[q + 1] = 48 + output;
    out[q + 2] = b' ';
    out[q + 3] = 48 + d.out_vc;
    out[q + 4] = b' ';
    out[q + 5] = 48 + d.input;
    out[q + 6] = b' ';
    out[q + 7] = 48 + d.vc;
    out[q + 8] = b' ';
    out[q + 9] = kind;
    out[q + 10] = b' ';
    let e = digits::hex(out, q + 11, d.payload);
    out[e] = b'\n';
    e + 1
}

// "first `C cycle input vc` for each credit reaching a sender, by input"
fn credits(out: &mut [u8], cycle: &Spelling, reply: Reply) -> usize
    requires { (printable (by_port (credit_line cycle.now.number reply) most_ports) ≡ true) × (128 ≤ length out.old) }
    ensures { Laid out.old 0 (text (by_port (credit_line cycle.now.number reply) most_ports)) out.new result × (result ≤ 128) }
{
    let mut at: usize = 0;
    for input in 0..base::PORTS {
        if let Some(vc) = reply.senders[input as usize] {
            at = credit(out, at, cycle, input, vc);
        }
    }
    at
}

// "then `F cycle output outvc input invc kind payload` for each flit out, by output"
fn flits(out: &mut [u8], from: usize, cycle: &Spelling, reply: Reply) -> usize
    requires { (printable (by_port (flit_line cycle.now.number reply) most_ports) ≡ true) × (from + 248 ≤ length out.old) }
    ensures { Laid out.old from (text (by_port (flit_line cycle.now.number reply) most_ports)) out.new result }
{
    let mut at: usize = from;
    for output in 0..base::PORTS {
        if let Some(d) = reply.outputs[output as usize] {
            at = flit(out, at, cycle, output, d);
        }
    }
    at
}

pub(crate) fn cycle(out: &mut [u8], cycle: u64, reply: Reply) -> usize
    requires { (printable (cycle_lines cycle reply) ≡ true) × (room ≤ length out.old) }
    ensures { Laid out.old 0 (text (cycle_lines cycle reply)) out.new result }
{
    let spelling = Spelling::of(cycle);
    let at = credits(out, &spelling, reply);
    flits(out, at, &spelling, reply)
}

// "E cycles flits"
pub(crate) fn finish(out: &mut [u8], cycles: u64, flits: u64) -> usize
    requires { (printable (line_finish cycles flits ∷ []) ≡ true) × (room ≤ length out.old) }
    ensures { Laid out.old 0 (print (line_finish cycles flits)) out.new result }
{
    out[0] = b'E';
    out[1] = b' ';
    let q = digits::decimal(out, 2, cycles);
    out[q] = b' ';
    let e = digits::decimal(out, q + 1, flits);
    out[e] = b'\n';
    e + 1
}

// "R number cycle place": a place is one digit.
pub(crate) fn refusal(out: &mut [u8], number: u8, cycles: u64, place: u8) -> usize
    requires { (printable (line_refusal number cycles place ∷ []) ≡ true) × (room ≤ length out.old) }
    ensures { Laid out.old 0 (print (line_refusal number cycles place)) out.new result }
{
    out[0] = b'R';
    out[1] = b' ';
    let p = digits::decimal(out, 2, number as u64);
    out[p] = b' ';
    let q = digits::decimal(out, p + 1, cycles);
    out[q] = b' ';
    out[q + 1] = 48 + place;
    out[q + 2] = b'\n';
    q + 3
}

// The writer's ranges at both ends, and its room.
ghost use Rattle.std.specs.Prelude.{◌≡◌, [], ◌∷◌, replicate};
ghost use Rattle.listing.specs.Lines.{finish as line_finish, refusal as line_refusal, cycle_lines};
ghost use Rattle.listing.specs.Writing.{written};
ghost use Rattle.edges.specs.Answers.{Answers, with_one_credit, full_reply};

use crate::answers::{answered, bytes_of, number_of};
use base::{Departure, Reply};
use check::expect;

fn end_line(cycles: u64, flits: u64, number: u8, line: &[u8])
    requires { Answers (written (replicate 376 0) 0 (line_finish cycles flits ∷ [])) number line.now }
{
    let mut buf = [0u8; 376];
    let written = listing::write_end(&mut buf, 0, cycles, flits);
    answered(&buf, written, number, line);
}

// "at most 10^9 in E"; "flits at most 8·10^9"
pub(crate) fn ends() {
    let none = [0u8; 1];
    end_line(
        1_000_000_000,
        8_000_000_000,
        0,
        b"E 1000000000 8000000000\n",
    );
    end_line(1_000_000_001, 0, 12, &none[..0]);
    end_line(0, 8_000_000_001, 12, &none[..0]);
}

fn refusal_line(refused: u8, cycles: u64, place: u8, number: u8, line: &[u8])
    requires { Answers (written (replicate 376 0) 0 (line_refusal refused cycles place ∷ [])) number line.now }
{
    let mut buf = [0u8; 376];
    let written = listing::write_refusal(&mut buf, 0, refused, cycles, place);
    answered(&buf, written, number, line);
}

// "number 1..10, place 0..7", and again "at most 10^9"
pub(crate) fn refusals() {
    let none = [0u8; 1];
    refusal_line(1, 0, 0, 0, b"R 1 0 0\n");
    refusal_line(10, 1_000_000_000, 7, 0, b"R 10 1000000000 7\n");
    refusal_line(0, 0, 0, 12, &none[..0]);
    refusal_line(11, 0, 0, 12, &none[..0]);
    refusal_line(1, 1_000_000_001, 0, 12, &none[..0]);
    refusal_line(1, 0, 8, 12, &none[..0]);
}

// A credit of this VC reached the sender of input 7.
fn one_credit(vc: u8) -> Reply
    ensures { result ≡ with_one_credit vc }
{
    let mut reply = Reply::empty();
    reply.senders[7] = Some(vc);
    reply
}

fn cycle_line(cycle: u64, vc: u8, number: u8, line: &[u8])
    requires { Answers (written (replicate 376 0) 0 (cycle_lines cycle (with_one_credit vc))) number line.now }
{
    let mut buf = [0u8; 376];
    let written = listing::write_cycle(&mut buf, 0, cycle, one_credit(vc));
    answered(&buf, written, number, line);
}

// "cycle below 10^9 in C and F lines"; "VCs 0..3"
pub(crate) fn credits() {
    let none = [0u8; 1];
    cycle_line(999_999_999, 3, 0, b"C 999999999 7 3\n");
    cycle_line(1_000_000_000, 3, 12, &none[..0]);
    cycle_line(0, 4, 12, &none[..0]);
}

// A credit at each input, and at each output a flit with the longest words.
fn full() -> Reply
    ensures { result ≡ full_reply }
{
    let flit = Departure {
        out_vc: 3,
        input: 7,
        vc: 3,
        kind: 1,
        payload: 0xffff_ffff,
    };
    Reply {
        senders: [Some(3); 8],
        outputs: [Some(flit); 8],
    }
}

// "Longest cycle: 8·31 + 8·16 = 376 bytes." They fill the room to the last byte.
pub(crate) fn longest() {
    let mut buf = [0u8; 376];
    let written = listing::write_cycle(&mut buf, 0, 999_999_999, full());
    expect(number_of(written) == 0);
    expect(bytes_of(written) == 376);
}

fn room_at(at: usize, number: u8, bytes: usize)
    requires { ((written (replicate 400 0) at (line_refusal 1 0 0 ∷ [])).number ≡ number)
        × ((written (replicate 400 0) at (line_refusal 1 0 0 ∷ [])).bytes ≡ bytes) }
{
    let mut buf = [0u8; 400];
    let written = listing::write_refusal(&mut buf, at, 1, 0, 0);
    expect(number_of(written) == number);
    expect(bytes_of(written) == bytes);
}

// "Room 376 serves, 375 gives 11", and so does a place at the end, past it, and the largest there is.
pub(crate) fn rooms() {
    room_at(24, 0, 8);
    room_at(25, 11, 0);
    room_at(400, 11, 0);
    room_at(401, 11, 0);
    room_at(18_446_744_073_709_551_615, 11, 0);
}

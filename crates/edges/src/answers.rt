// What a write answered, and what then stands in a buffer that was all zero.
ghost use Rattle.std.specs.Prelude.{◌≡◌, ◌==◌, ℕ};
ghost use Rattle.std.specs.List.{list_all};
ghost use Rattle.listing.specs.Writing.{write_outcome};
ghost use Rattle.edges.specs.Answers.{Answers, number_of, bytes_of};

use base::{DONE, NO_ROOM, OUT_OF_RANGE};
use check::{expect, same};
use listing::Unwritten;

pub(crate) fn number_of(written: Result<usize, Unwritten>) -> u8
    ensures { result ≡ number_of written }
{
    match written {
        Ok(_) => DONE,
        Err(Unwritten::NoRoom) => NO_ROOM,
        Err(Unwritten::OutOfRange) => OUT_OF_RANGE,
    }
}

pub(crate) fn bytes_of(written: Result<usize, Unwritten>) -> usize
    ensures { result ≡ bytes_of written }
{
    written.unwrap_or(0)
}

fn are_zero(bytes: &[u8]) -> bool
    ensures { result ≡ list_all (λ (byte : ℕ). byte == 0) bytes.now }
{
    bytes.iter().all(|byte| *byte == 0)
}

// The number, the count of bytes, the line from place 0 on, and nothing behind it. A refused write has no line.
pub(crate) fn answered(buf: &[u8], written: Result<usize, Unwritten>, number: u8, line: &[u8])
    requires { Answers (write_outcome written buf.now) number line.now }
{
    let n = line.len();
    expect(number_of(written) == number);
    expect(bytes_of(written) == n);
    expect(same(&buf[..n], line));
    expect(are_zero(&buf[n..]));
}

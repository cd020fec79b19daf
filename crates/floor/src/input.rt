// Reading from a stream.
ghost use Rattle.std.specs.Prelude.{MatchResult};
ghost use Rattle.io.specs.Counts.{IsPrefixLen};

use crate::TRIES;
use std::io::Read;

// The input could not be read on, after so many bytes at the start of the buffer.
#[derive(Clone, Copy, PartialEq, Eq)]
pub struct Unread {
    pub bytes: usize,
}

// Reads until the buffer is full or the input ends, and answers how many bytes came. The tries are given back after each byte that came.
pub fn fill<R: Read>(from: &mut R, buf: &mut [u8]) -> Result<usize, Unread>
    ensures { MatchResult result (λ bytes. IsPrefixLen bytes buf.new) (λ unread. IsPrefixLen unread.bytes buf.new) }
{
    let mut bytes: usize = 0;
    let mut tries = TRIES;
    while bytes < buf.len() {
        match from.read(&mut buf[bytes..]) {
            Ok(0) => {
                return Ok(bytes);
            }
            Ok(more) => {
                bytes += more;
                tries = TRIES;
            }
            Err(_) => {
                if tries == 0 {
                    return Err(Unread { bytes });
                }
                tries -= 1;
            }
        }
    }
    Ok(bytes)
}

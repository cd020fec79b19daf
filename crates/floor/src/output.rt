// Writing to a stream.
ghost use Rattle.floor.specs.Handing.{Puts};

use crate::TRIES;
use std::io::Print;

// Writes the first bytes of a buffer, or answers false. The tries are given back after each byte that went.
pub fn put<P: Print>(to: &P, buf: &[u8], bytes: usize) -> bool
    ensures { Puts buf.now bytes result }
{
    if buf.len() < bytes {
        return false;
    }
    let mut done: usize = 0;
    let mut tries = TRIES;
    while done < bytes {
        if let Ok(more) = to.write_some(&buf[done..bytes]) {
            if 0 < more {
                done += more;
                tries = TRIES;
                continue;
            }
        }
        if tries == 0 {
            return false;
        }
        tries -= 1;
    }
    true
}

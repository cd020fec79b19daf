// Stored traces through the run entry, cut into parts of any number of blocks. Standard input is a row of parts: two bytes with a part's
// length, the higher first, and its bytes; a part of no bytes is the end of a trace, and the next part begins another. The lists go to
// standard output one after another. Traces and lists are the second model's (docs/FORMATS.md says how they are made).
#![tactic(auto)]

use runs::Run;
use std::io::{Print, Read};

// A part's length, from the two bytes before it.
fn length(high: u8, low: u8) -> usize {
    usize::from(u16::from_be_bytes([high, low]))
}

// A proved loop has to end, so there are at most so many parts.
fn replay<R: Read, P: Print>(
    from: &mut R,
    head: &mut [u8],
    buf: &mut [u8],
    out: &mut [u8],
    to: &P,
) {
    let mut run = Run::start();
    'each: for _ in 0..u64::MAX {
        let Ok(2) = floor::fill(from, head) else {
            return;
        };
        let bytes = length(head[0], head[1]);
        if buf.len() < bytes {
            return;
        }
        let part = &mut buf[0..bytes];
        if floor::fill(from, part) != Ok(bytes) {
            return;
        }
        let passed = floor::pass(run, part, out, to);
        if passed.outcome.is_err() {
            return;
        }
        run = if bytes == 0 { Run::start() } else { passed.run };
    }
}

fn main(rt: HostRuntime) {
    let mut head = [0u8; 2];
    let mut buf = io::large_buffer();
    let mut out = io::large_buffer();
    replay(&mut rt.stdin(), &mut head, &mut buf, &mut out, &rt.stdout());
}

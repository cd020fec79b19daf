// Handing a part over to the run entry and writing its lines.
ghost use Rattle.std.specs.Prelude.{◌≡◌, ◌+◌, ◌≤◌, length};
ghost use Rattle.floor.specs.Handing.{Passes, is_whole_blocks, Finishes, Handing};

use crate::output;
use base::DONE;
use runs::Run;
use std::io::Print;

// Why a part was not handed over whole.
#[derive(Clone, Copy, PartialEq, Eq)]
pub enum Stop {
    // more bytes are named than the buffer has
    Beyond,
    // the buffer is not some whole blocks
    Uneven,
    // a call was refused with this number
    Refused(u8),
    // the next block asks for so many bytes of room, and the buffer for the lines is shorter
    NoRoom(usize),
    // the lines of the last call were not written
    NotWritten,
}

// The run after so many calls; all of the part was used or the run is over, or why there was no further call.
#[derive(Clone, Copy, PartialEq, Eq)]
pub struct Passed {
    pub run: Run,
    pub calls: usize,
    pub outcome: Result<(), Stop>,
}

// Hands a part over until it is used up or the run is over. Each call but the last uses a block at least.
pub fn pass<P: Print>(before: Run, part: &[u8], out: &mut [u8], to: &P) -> Passed
    ensures { Passes part.now (record { run = before; buffer = out.old }) result.calls result.outcome
        (record { run = result.run; buffer = out.new }) }
{
    let mut run = before;
    let mut from: usize = 0;
    let mut calls: usize = 0;
    while from <= part.len() {
        let ran = router::run(run, &part[from..], out, 0);
        run = ran.run;
        calls += 1;
        if ran.number != DONE {
            return Passed {
                run,
                calls,
                outcome: Err(Stop::Refused(ran.number)),
            };
        }
        if !output::put(to, out, ran.written) {
            return Passed {
                run,
                calls,
                outcome: Err(Stop::NotWritten),
            };
        }
        if ran.asks == 0 {
            return Passed {
                run,
                calls,
                outcome: Ok(()),
            };
        }
        if ran.used == 0 {
            return Passed {
                run,
                calls,
                outcome: Err(Stop::NoRoom(ran.asks)),
            };
        }
        from += ran.used;
    }
    // never reached: what a call uses is inside the part
    Passed {
        run,
        calls,
        outcome: Ok(()),
    }
}

fn holds_blocks(bytes: usize) -> bool
    ensures { result ≡ is_whole_blocks bytes }
{
    bytes != 0 && bytes % 512 == 0
}

// The end of the input: an empty part, where all before it was handed over and the run is not over.
fn finish<P: Print>(passed: Passed, buf: &[u8], out: &mut [u8], to: &P) -> Passed
    requires { passed.calls ≤ 9223372036854775808 }
    ensures { Finishes (record { run = passed.run; buffer = out.old }) passed.calls passed.outcome result.calls result.outcome
        (record { run = result.run; buffer = out.new }) }
{
    let run = passed.run;
    if passed.outcome.is_err() || run.over {
        return passed;
    }
    let last = pass(run, &buf[0..0], out, to);
    Passed {
        calls: passed.calls + last.calls,
        ..last
    }
}

// Hands over what was read into a buffer of some whole blocks: its first bytes, and where they do not fill it, the end of the input.
pub fn hand<P: Print>(run: Run, buf: &[u8], bytes: usize, out: &mut [u8], to: &P) -> Passed
    ensures { Handing buf.now bytes (record { run = run; buffer = out.old }) result.calls result.outcome
        (record { run = result.run; buffer = out.new }) }
{
    if buf.len() < bytes {
        return Passed {
            run,
            calls: 0,
            outcome: Err(Stop::Beyond),
        };
    }
    if !holds_blocks(buf.len()) {
        return Passed {
            run,
            calls: 0,
            outcome: Err(Stop::Uneven),
        };
    }
    let passed = pass(run, &buf[0..bytes], out, to);
    if bytes == buf.len() {
        return passed;
    }
    finish(passed, buf, out, to)
}

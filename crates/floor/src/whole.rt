// A whole night: the input read piece by piece, handed over, its list written.
ghost use Rattle.std.specs.Prelude.{List, ℕ, length};
ghost use Rattle.runs.specs.Run.{started};
ghost use Rattle.floor.specs.Handing.{Lists};

use crate::passing::Stop;
use crate::{input, passing};
use runs::Run;
use std::io::{Print, Read};

// Why a list is left without its last line.
#[derive(Clone, Copy, PartialEq, Eq)]
pub enum Unlisted {
    // the input could not be read on
    Unread,
    // a piece was not handed over whole
    Stopped(Stop),
}

#[derive(Clone, Copy, PartialEq, Eq)]
pub struct Listed {
    pub run: Run,
    pub outcome: Result<(), Unlisted>,
}

// Reads until the buffer is full or the input ends, hands over what was read, and so on until the run is over. A proved loop has to end, so
// that at most 2^64 - 1 pieces are read, more than there can be.
pub fn list<R: Read, P: Print>(from: &mut R, buf: &mut [u8], out: &mut [u8], to: &P) -> Listed
    ensures { (pieces : List (List ℕ)) × Lists (length buf.old) (record { run = started; buffer = out.old })
        pieces result.outcome (record { run = result.run; buffer = out.new }) }
{
    let mut run = Run::start();
    'each: for _ in 0..u64::MAX {
        let Ok(bytes) = input::fill(from, buf) else {
            break;
        };
        let passed = passing::hand(run, buf, bytes, out, to);
        run = passed.run;
        if let Err(stop) = passed.outcome {
            return Listed {
                run,
                outcome: Err(Unlisted::Stopped(stop)),
            };
        }
        if run.over {
            return Listed {
                run,
                outcome: Ok(()),
            };
        }
    }
    Listed {
        run,
        outcome: Err(Unlisted::Unread),
    }
}

// The run entry: the blocks of a part of a trace, their lines into the caller's buffer. The run handed in is tested once a call.
ghost use Rattle.std.specs.Prelude.{◌≡◌, false, ◌≤◌, length};
ghost use Rattle.router.specs.Running.{Writing, block_taken, going_on, CallOutcome, answered, ran_of};
ghost use Rattle.router.specs.Inside.{Within, Ongoing};

use crate::blocks::BLOCK_ROOM;
use crate::running::RunParts;
use crate::{blocks, parts, running};
use base::{DONE, NO_ROOM, NOT_SOUND, ROOM};
use runs::Run;
use trace::Found;

// What a call answers: the number, the run after it, how many bytes of the part were used, and how many were written. `asks` is
// `BLOCK_ROOM` where the next block's lines might not have fitted, so that the call stopped before it, and else 0: all of the part was used
// or the run is over.
#[derive(Clone, Copy)]
pub struct Ran {
    pub number: u8,
    pub run: Run,
    pub used: usize,
    pub written: usize,
    pub asks: usize,
}

// After the configuration block: the run, and where the next line comes.
#[derive(Clone, Copy)]
pub struct RunAndAt {
    pub run: Run,
    pub at: usize,
}

// The blocks of a part from `first` on, after the configuration block. `start` is where this call's lines began.
fn go(
    run: Run,
    part: &[u8],
    first: usize,
    count: usize,
    buf: &mut [u8],
    start: usize,
    at: usize,
) -> Ran
    requires { Ongoing (record { run = run; at = at; buffer = buf.old }) × (first ≤ length part.now) × (start ≤ at) }
    ensures { ◌≡◌ {A = CallOutcome} (record { ran = result; buffer = buf.new })
        (answered start (going_on part.now count (record
        { used = first; asks = 0; writing = record { run = run; at = at; buffer = buf.old } }))) }
{
    let router = run.router;
    let config = router.config;
    let mut store = router.store;
    let mut wire = router.wire;
    let mut home = router.home;
    let place0 = run.place;
    let through = blocks::blocks(
        config,
        RunParts {
            parts: parts::unpack(router),
            place: place0,
            cycle: router.cycle,
            flits: run.flits,
            over: run.over,
            at,
        },
        part,
        first,
        count,
        &mut store,
        &mut wire,
        &mut home,
        buf,
    );
    let after = through.run;
    let parts = after.parts;
    let place = after.place;
    Ran {
        number: DONE,
        run: Run {
            router: parts::pack(config, after.cycle, parts, store, wire, home),
            place,
            flits: after.flits,
            over: after.over,
        },
        used: through.used,
        written: after.at - start,
        asks: through.asks,
    }
}

// The first block of a file.
fn begin(run: Run, block: &[u8], buf: &mut [u8], at: usize) -> RunAndAt
    requires { (run.place.configured ≡ false) × (run.over ≡ false) × (run.router.cycle ≡ 0) × Within at buf.old }
    ensures { ◌≡◌ {A = Writing} (record { run = result.run; at = result.at; buffer = buf.new })
        (block_taken block.now (record { run = run; at = at; buffer = buf.old })) }
{
    let answer = trace::judge(run.place, 0, block);
    let found = answer.found;
    let place = answer.place;
    match found {
        Ok(first) => match first {
            Found::Configuration(config) => {
                let built = state::fresh(config);
                let router = built.router;
                RunAndAt {
                    run: Run {
                        router,
                        place,
                        flits: run.flits,
                        over: run.over,
                    },
                    at,
                }
            }
            // another block is never the first
            Found::Cycles(_) => RunAndAt { run, at },
            Found::End => RunAndAt { run, at },
            Found::Done => RunAndAt { run, at },
        },
        Err(refusal) => {
            let written = listing::write_refusal(buf, at, refusal.number, 0, refusal.place);
            let bytes = running::size(written);
            let mut last = run;
            last.over = true;
            RunAndAt {
                run: last,
                at: at + bytes,
            }
        }
    }
}

// A call that uses nothing and writes nothing.
fn unmoved(number: u8, run: Run, asks: usize) -> Ran
    ensures { ◌≡◌ {A = Ran} result (record { number = number; run = run; used = 0; written = 0; asks = asks }) }
{
    Ran {
        number,
        run,
        used: 0,
        written: 0,
        asks,
    }
}

// A part of a trace, of any length: its blocks one after another, as long as the run is not over and there is room for a block's lines.
// 2 where the run handed in is not sound, 11 where the buffer has no room for a line from `at` on; such a call changes nothing.
pub fn run(run: Run, part: &[u8], buf: &mut [u8], at: usize) -> Ran
    ensures { ◌≡◌ {A = CallOutcome} (record { ran = result; buffer = buf.new })
        (ran_of run part.now buf.old at) }
{
    if !runs::is_sound(run) {
        return unmoved(NOT_SOUND, run, 0);
    }
    if !listing::has_room(buf, at, ROOM) {
        return unmoved(NO_ROOM, run, 0);
    }
    let count = blocks::blocks_in(part.len());
    let place = run.place;
    if run.over {
        return go(run, part, 0, count, buf, at, at);
    }
    if place.configured {
        return go(run, part, 0, count, buf, at, at);
    }
    if !listing::has_room(buf, at, BLOCK_ROOM) {
        return unmoved(DONE, run, BLOCK_ROOM);
    }
    let end = blocks::block_end(part, 0);
    let begun = begin(run, &part[0..end], buf, at);
    let next = begun.run;
    go(next, part, end, count - 1, buf, at, begun.at)
}

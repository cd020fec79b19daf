// The cycles of a block, stepped and listed one after another, up to the first refusal.
ghost use Rattle.std.specs.Prelude.{◌≡◌, true, List, ℕ, ◌+◌, ◌*◌, ◌≤◌, ◌<◌, length};
ghost use Rattle.trace.specs.Blocks.{held_of};
ghost use Rattle.listing.specs.Lines.{refusal as line_refusal, finish as line_finish, cycle_lines, flit_lines};
ghost use Rattle.listing.specs.Writing.{write_outcome};
ghost use Rattle.router.specs.Running.{ended_by, cycled, cycles_from, block_taken};
ghost use Rattle.router.specs.Inside.{Within, GoesOn, writing_of};

use crate::cycle::inner_step;
use crate::parts::Parts;
use base::{Config, Refusal, Reply};
use listing::Unwritten;
use trace::{Found, Place};

// A run inside a call: the router's parts that travel by value, its cycle count, the run's other fields, and where the next line comes.
#[derive(Clone, Copy)]
pub struct RunParts {
    pub parts: Parts,
    pub cycle: u64,
    pub flits: u64,
    pub over: bool,
    pub at: usize,
    pub place: Place,
}

// The bytes that a write took; a refused one took none.
pub(crate) fn size(written: Result<usize, Unwritten>) -> usize
    ensures { (buffer : List ℕ) → result ≡ (write_outcome written buffer).bytes }
{
    written.unwrap_or(0)
}

// The flits that leave in a cycle.
fn flits_of(reply: Reply) -> u64
    ensures lines { (cycle : ℕ) → result ≡ flit_lines (cycle_lines cycle reply) }
    ensures few { result ≤ 8 }
{
    let outputs = reply.outputs;
    let mut count: u64 = 0;
    for left in &outputs {
        count += u64::from(left.is_some());
    }
    count
}

// The run ends with an R line.
fn refuse(before: RunParts, refusal: Refusal, out: &mut [u8]) -> RunParts
    requires { Within before.at out.old }
    ensures { (c : Config) (store wire home : List ℕ) → writing_of c result store wire home out.new
        ≡ ended_by (line_refusal refusal.number before.cycle refusal.place) (writing_of c before store wire home out.old) }
{
    let mut run = before;
    let bytes = size(listing::write_refusal(
        out,
        before.at,
        refusal.number,
        before.cycle,
        refusal.place,
    ));
    run.at = before.at + bytes;
    run.over = true;
    run
}

// One cycle and its lines.
fn cycle(
    config: Config,
    before: RunParts,
    part: &[u8],
    store: &mut [u64; 512],
    wire: &mut [u64; 64],
    home: &mut [u8; 64],
    out: &mut [u8],
) -> RunParts
    requires { GoesOn (writing_of config before store.old wire.old home.old out.old) }
    ensures { writing_of config result store.new wire.new home.new out.new
        ≡ cycled part.now (writing_of config before store.old wire.old home.old
        out.old) }
{
    let parts = before.parts;
    let done = inner_step(config, before.cycle, parts, part, store, wire, home);
    let after = done.parts;
    let verdict = done.verdict;
    if let Err(refusal) = verdict {
        return refuse(before, refusal, out);
    }
    let reply = done.reply;
    let bytes = size(listing::write_cycle(out, before.at, before.cycle, reply));
    let place = before.place;
    RunParts {
        parts: after,
        place,
        cycle: done.cycle,
        flits: before.flits + flits_of(reply),
        over: before.over,
        at: before.at + bytes,
    }
}

// The cycles that a block holds.
fn cycles(
    config: Config,
    before: RunParts,
    held: u8,
    block: &[u8],
    store: &mut [u64; 512],
    wire: &mut [u64; 64],
    home: &mut [u8; 64],
    out: &mut [u8],
) -> RunParts
    requires { GoesOn (writing_of config before store.old wire.old home.old out.old) × (512 ≤ length block.now)
        × (held_of block.now ≤ 7) × (held ≡ held_of block.now) }
    ensures { writing_of config result store.new wire.new home.new out.new
        ≡ cycles_from block.now 0 held (writing_of config before store.old wire.old home.old
        out.old) }
{
    let mut run = before;
    for k in 0..held as usize {
        if run.over {
            return run;
        }
        let part = trace::cycle_part(block, k);
        run = cycle(config, run, part, store, wire, home, out);
    }
    run
}

// The list ends with the E line.
fn finish(before: RunParts, out: &mut [u8]) -> RunParts
    requires { Within before.at out.old }
    ensures { (c : Config) (store wire home : List ℕ) → writing_of c result store wire home out.new
        ≡ ended_by (line_finish before.cycle before.flits) (writing_of c before store wire home out.old) }
{
    let mut run = before;
    let bytes = size(listing::write_end(out, before.at, before.cycle, before.flits));
    run.at = before.at + bytes;
    run.over = true;
    run
}

// One block after the configuration block.
pub(crate) fn block(
    config: Config,
    before: RunParts,
    block: &[u8],
    store: &mut [u64; 512],
    wire: &mut [u64; 64],
    home: &mut [u8; 64],
    out: &mut [u8],
) -> RunParts
    requires { (before.place.configured ≡ true) × GoesOn (writing_of config before store.old wire.old home.old out.old) }
    ensures { writing_of config result store.new wire.new home.new out.new
        ≡ block_taken block.now (writing_of config before store.old wire.old home.old
        out.old) }
{
    let answer = trace::judge(before.place, before.cycle, block);
    let found = answer.found;
    let place = answer.place;
    let mut moved = before;
    moved.place = place;
    match found {
        Ok(read) => match read {
            // the configuration block is the first, and is read elsewhere
            Found::Configuration(_) => moved,
            Found::Cycles(held) => cycles(config, moved, held, block, store, wire, home, out),
            Found::End => moved,
            Found::Done => finish(moved, out),
        },
        Err(refusal) => refuse(before, refusal, out),
    }
}

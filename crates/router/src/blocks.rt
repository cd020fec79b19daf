// The blocks of a part of a trace, one after another, as long as there is room for their lines.
ghost use Rattle.std.specs.Prelude.{◌≡◌, ◌+◌, ◌-◌, ◌/◌, ◌≤◌, ◌<◌, length};
ghost use Rattle.router.specs.Running.{block_at, Call, going_on};
ghost use Rattle.router.specs.Inside.{Ongoing, writing_of};

use crate::running;
use crate::running::RunParts;
use base::{Config, ROOM};

// A block holds at most 7 cycles, and a refused one has an R line: so many bytes from the place on, or no line of it is written.
pub const BLOCK_ROOM: usize = 8 * ROOM;

// How far a call has come: the run, the bytes of the part that were used, and `BLOCK_ROOM` where it stopped for want of it, else 0.
#[derive(Clone, Copy)]
pub struct RunAndUsed {
    pub run: RunParts,
    pub used: usize,
    pub asks: usize,
}

// The blocks in so many bytes: the last may be shorter, and no bytes are one empty block.
pub(crate) fn blocks_in(bytes: usize) -> usize
    requires { bytes < 9223372036854775808 }
    ensures { result ≡ 1 + (bytes - 1) / 512 }
{
    if bytes == 0 {
        return 1;
    }
    1 + (bytes - 1) / 512
}

// Where the block from `from` on ends: 512 bytes on, or with the part.
pub(crate) fn block_end(part: &[u8], from: usize) -> usize
    requires { from ≤ length part.now }
    ensures after { result ≡ from + length (block_at part.now from) }
    ensures inside { result ≤ length part.now }
    ensures short { result ≤ from + 512 }
{
    if part.len() - from < 512 {
        return part.len();
    }
    from + 512
}

// At most so many blocks from `first` on.
pub(crate) fn blocks(
    config: Config,
    before: RunParts,
    part: &[u8],
    first: usize,
    count: usize,
    store: &mut [u64; 512],
    wire: &mut [u64; 64],
    home: &mut [u8; 64],
    out: &mut [u8],
) -> RunAndUsed
    requires { Ongoing (writing_of config before store.old wire.old home.old out.old) × (first ≤ length part.now) }
    ensures { ◌≡◌ {A = Call} (record {
      used = result.used;
      asks = result.asks;
      writing = writing_of config result.run store.new wire.new home.new out.new;
    })
        (going_on part.now count (record {
          used = first;
          asks = 0;
          writing = writing_of config before store.old wire.old home.old out.old;
        })) }
{
    let mut run = before;
    let mut from = first;
    'each: for _ in 0..count {
        if run.over {
            return RunAndUsed {
                run,
                used: from,
                asks: 0,
            };
        }
        if !listing::has_room(out, run.at, BLOCK_ROOM) {
            return RunAndUsed {
                run,
                used: from,
                asks: BLOCK_ROOM,
            };
        }
        let end = block_end(part, from);
        run = running::block(config, run, &part[from..end], store, wire, home, out);
        from = end;
    }
    RunAndUsed {
        run,
        used: from,
        asks: 0,
    }
}

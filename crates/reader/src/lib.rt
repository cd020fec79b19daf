// "The block reader is a small view over one lent block that remembers its place" (01, blocks). The functions over the struct are thin:
// the work is done over a slice and a number, by `next_cycle` here and by `trace::cycle_part`.
#![tactic(auto)]

ghost use Rattle.std.specs.Prelude.{◌≡◌};
ghost use Rattle.trace.specs.Cycles.{slice_of, part_of_cycle};
ghost use Rattle.reader.specs.Reader.{following_cycle};

// The block lent, and the number of the cycle to show, counted from 0.
#[derive(Clone, Copy, PartialEq, Eq)]
pub struct Reader<'a> {
    pub block: &'a [u8],
    pub cycle: usize,
}

// The place after the cycle shown; where the part shown is empty, the reader "stays".
pub fn next_cycle(block: &[u8], cycle: usize) -> usize
    ensures { result ≡ following_cycle block.now cycle }
{
    if trace::cycle_part(block, cycle).is_empty() {
        return cycle;
    }
    cycle + 1
}

// "a small view over one lent block": a reader at its first cycle.
pub fn over<'a>(block: &'a [u8]) -> Reader<'a>
    ensures { (result.block ≡ block.entry) × (result.cycle ≡ 0) }
{
    Reader { block, cycle: 0 }
}

// "it shows the next cycle as a part of the caller's block, not a copy"
pub fn shown<'a>(r: Reader<'a>) -> &'a [u8]
    ensures { slice_of result ≡ part_of_cycle (slice_of r.entry.block) r.entry.cycle }
{
    trace::cycle_part(r.block, r.cycle)
}

// "remembers its place": the reader after the cycle shown, over the same block.
pub fn moved<'a>(r: Reader<'a>) -> Reader<'a>
    ensures { (result.block ≡ r.entry.block) × (result.cycle ≡ following_cycle r.entry.block.now r.entry.cycle) }
{
    Reader {
        cycle: next_cycle(r.block, r.cycle),
        ..r
    }
}

// What a reader over this block shows at this cycle: for every caller that holds no reader.
pub fn shown_at(block: &[u8], cycle: usize) -> &[u8]
    ensures { slice_of result ≡ part_of_cycle (slice_of block.entry) cycle }
{
    shown(Reader { block, cycle })
}

// The cycles that a block holds, each as a part of the caller's block.
ghost use Rattle.std.specs.Prelude.{◌≡◌};
ghost use Rattle.trace.specs.Cycles.{slice_of, part_of_cycle};

// "64 bytes each from byte 8": cycle k of those held, and an empty part where there is none.
#[tactic(auto, unfolding(crate::specs::Cycles::part_of_cycle, crate::specs::Cycles::shows))]
pub fn cycle_part(block: &[u8], k: usize) -> &[u8]
    ensures { slice_of result ≡ part_of_cycle (slice_of block.entry) k }
{
    if block.len() < 512 || 7 < block[1] || usize::from(block[1]) <= k {
        return &block[..0];
    }
    let from = 8 + 64 * k;
    &block[from..from + 64]
}

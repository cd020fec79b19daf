// The check of a block.
ghost use Rattle.std.specs.Prelude.{◌≡◌, ◌≤◌, length};
ghost use Rattle.trace.specs.Check.{check_value, check_holds};

use crate::bytes;

// "the sum over i = 0..509 of (i+1) times byte i, modulo 65,521". The sum stays below 2^25, so that one division at the end serves.
// The weight is counted beside the bytes: made from `enumerate`'s index, by a cast for each byte, it was slower.
pub(crate) fn check_of(block: &[u8]) -> u32
    requires { 510 ≤ length block.now }
    ensures { result ≡ check_value block.now }
{
    let mut sum: u32 = 0;
    let mut weight: u32 = 1;
    for x in &block[..510] {
        sum += weight * u32::from(*x);
        weight += 1;
    }
    sum % 65521
}

// Whether the stored check, as a value, is the block's.
#[tactic(auto, unfolding(crate::specs::Check::check_holds))]
pub(crate) fn holds(block: &[u8]) -> bool
    requires { 512 ≤ length block.now }
    ensures { result ≡ check_holds block.now }
{
    check_of(block) == u32::from(bytes::two_bytes(block, 510))
}

// Numbers and zeros among the bytes of a block.
ghost use Rattle.std.specs.Prelude.{◌≡◌, ◌+◌, ◌≤◌, length};
ghost use Rattle.trace.specs.Bytes.{big_endian, zeros};

#[tactic(auto, using(crate::proofs::Spelling::two_read))]
pub(crate) fn two_bytes(block: &[u8], from: usize) -> u16
    requires { from + 2 ≤ length block.now }
    ensures { result ≡ big_endian block.now from 2 }
{
    u16::from_be_bytes([block[from], block[from + 1]])
}

#[tactic(auto, using(crate::proofs::Spelling::four_read))]
pub(crate) fn four_bytes(block: &[u8], from: usize) -> u32
    requires { from + 4 ≤ length block.now }
    ensures { result ≡ big_endian block.now from 4 }
{
    u32::from_be_bytes([
        block[from],
        block[from + 1],
        block[from + 2],
        block[from + 3],
    ])
}

// Whether all bytes at `from` and after it, but before `to`, are zero. One test at the end, so that the bytes are taken many at a time.
#[tactic(auto, using(crate::proofs::Zeros::zeros_none, crate::proofs::Zeros::zeros_more))]
pub(crate) fn are_zero(block: &[u8], from: usize, to: usize) -> bool
    requires { (from ≤ to) × (to ≤ length block.now) }
    ensures { result ≡ zeros block.now from to }
{
    let mut any = 0;
    for x in &block[from..to] {
        any |= *x;
    }
    any == 0
}

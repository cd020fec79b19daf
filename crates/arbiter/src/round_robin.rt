// Round robin: the next in turn from the pointer on.
ghost use Rattle.std.specs.Prelude.{◌≡◌, ◌^◌, ◌<◌, ◌≤◌};
ghost use Rattle.base.specs.Bits.{bit};
ghost use Rattle.arbiter.specs.RoundRobin.{next_in_turn, pointer_after};

// The first bit of `asking` at or after the pointer, else its first.
pub(crate) fn choose(n: u32, asking: u32, pointer: u32) -> Option<u32>
    requires { (n ≤ 32) × (pointer < n) × (asking < 2 ^ n) }
    ensures { result ≡ next_in_turn n (bit asking) pointer }
{
    let after = asking >> pointer;
    if after != 0 {
        return Some(pointer + u32::trailing_zeros(after));
    }
    if asking != 0 {
        return Some(u32::trailing_zeros(asking));
    }
    None
}

// The pointer after w has won.
pub(crate) fn next(n: u32, w: u32) -> u32
    requires { w < n }
    ensures { result ≡ pointer_after n w }
{
    if w + 1 == n { 0 } else { w + 1 }
}

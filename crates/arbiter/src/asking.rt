// Requesters as the bits of a word.
ghost use Rattle.std.specs.Prelude.{◌≡◌, ◌%◌, ◌^◌, ◌-◌, ◌≤◌, ◌<◌};
ghost use Rattle.arbiter.specs.Matrix.{fresh_row};

// The word of all numbers below n.
pub(crate) fn all(n: u32) -> u32
    requires { n ≤ 32 }
    ensures { result ≡ 2 ^ n - 1 }
{
    let one: u64 = 1;
    ((one << n) - 1) as u32
}

// The word of i alone.
pub(crate) fn only(i: u32) -> u32
    requires { i < 32 }
    ensures { result ≡ 2 ^ i }
{
    let one: u32 = 1;
    one << i
}

// The word of the numbers above i and below n.
pub(crate) fn above(i: u32, n: u32) -> u32
    requires { n ≤ 32 }
    ensures { result ≡ fresh_row n i }
{
    if i < n { all(n) - all(i + 1) } else { 0 }
}

// Those of a set that are below n.
pub(crate) fn below(n: u32, set: u32) -> u32
    requires { n ≤ 32 }
    ensures { result ≡ set % 2 ^ n }
{
    set & all(n)
}

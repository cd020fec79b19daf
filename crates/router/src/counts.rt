// Counts that fit a byte.
ghost use Rattle.std.specs.Prelude.{◌≡◌, ◌-◌, ◌<◌};

// A byte as a number. A byte read out of a lent array is known to be one only here.
pub(crate) fn wide(byte: u8) -> usize
    ensures value { result ≡ byte }
    ensures small { result < 256 }
{
    byte as usize
}

// One less; 0 stays.
pub(crate) fn less_one(count: u8) -> u8
    ensures { result ≡ count - 1 }
{
    count.saturating_sub(1)
}

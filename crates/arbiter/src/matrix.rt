// Matrix: the champion among those that ask, and its fall behind all others.
ghost use Rattle.std.specs.Prelude.{◌≡◌, ◌^◌, ◌<◌, ◌≤◌, length};
ghost use Rattle.base.specs.Bits.{bit};
ghost use Rattle.arbiter.specs.Matrix.{champion, defeated, fresh_rows};

use crate::asking;

// The first of `asking` whose row and own bit cover all of `asking`. Only set bits are tried.
pub(crate) fn choose(n: u32, asking: u32, rows: &[u32]) -> Option<u32>
    requires { (n ≤ 32) × (n ≤ length rows.now) × (asking < 2 ^ n) }
    ensures { result ≡ champion n (bit asking) rows.now }
{
    let mut left = asking;
    while left != 0 {
        let i = u32::trailing_zeros(left);
        let own = asking::only(i);
        if (asking & rows[i as usize]) | own == asking {
            return Some(i);
        }
        left = left - own;
    }
    None
}

// After w has won, each of the n beats it and it beats nobody.
pub(crate) fn defeat(n: u32, w: u32, rows: &mut [u32])
    requires { (n ≤ 32) × (n ≤ length rows.old) × (w < n) }
    ensures { rows.new ≡ defeated n w rows.old }
{
    let own = asking::only(w);
    for j in 0..n as usize {
        rows[j] |= own;
    }
    rows[w as usize] = 0;
}

// A lower number beats a higher: row i holds the numbers above i and below n.
pub(crate) fn order(n: u32, rows: &mut [u32])
    requires { (n ≤ 32) × (length rows.old ≤ 32) }
    ensures { rows.new ≡ fresh_rows (length rows.old) n }
{
    for (i, row) in rows.iter_mut().enumerate() {
        *row = asking::above(i as u32, n);
    }
}

// Whether the rows of a matrix are a total order, in two passes over the rows instead of one over all triples.
ghost use Rattle.std.specs.Prelude.{◌≡◌, ◌&&◌, ℕ, ◌<◌, ◌≤◌, length, get_or};
ghost use Rattle.std.specs.Int.Count.{ones};
ghost use Rattle.arbiter.specs.Matrix.{total_order, within};

use crate::asking;

// For each rank, some requester that beats so many, where there is one; in a total order there is exactly one for each rank below n.
fn by_rank(n: u32, rows: &[u32]) -> [u8; 33]
    requires { (1 ≤ n) × (n ≤ 32) × (n ≤ length rows.now) }
    ensures inside { (k : ℕ) → get_or result k 0 < n }
    ensures ranked { (i : ℕ) → i < n
        → ones (get_or rows.now (get_or result (ones (get_or rows.now i 0)) 0) 0) ≡ ones (get_or rows.now i 0) }
{
    let mut at = [0u8; 33];
    for i in 0..n {
        at[rows[i as usize].count_ones() as usize] = i as u8;
    }
    at
}

// Each rank's requester beats exactly those of the ranks before, and in the end these are all.
pub(crate) fn is_total(n: u32, rows: &[u32]) -> bool
    requires { (1 ≤ n) × (n ≤ 32) × (n ≤ length rows.now) }
    ensures { result ≡ (total_order n rows.now && within n rows.now) }
{
    let at = by_rank(n, rows);
    let mut lower: u32 = 0;
    for rank in 0..n {
        let i = at[rank as usize] as u32;
        let own = asking::only(i);
        if rows[i as usize] != lower {
            return false;
        }
        if lower & own != 0 {
            return false;
        }
        lower |= own;
    }
    lower == asking::all(n)
}

// What an arbiter is given, tested: its kind, its width, its pointer, and the rows that are not in use.
ghost use Rattle.std.specs.Prelude.{◌≡◌, ◌&&◌, ◌≤◌, ◌==◌, ℕ, eqb, length};
ghost use Rattle.std.specs.List.{list_all};
ghost use Rattle.arbiter.specs.Matrix.{blank_from};
ghost use Rattle.arbiter.specs.Requests.{width};
ghost use Rattle.arbiter.specs.Arbiter.{matrix, known, usable};

// "Arbiter code 1 (round robin) or 2 (matrix)".
pub(crate) const ROUND_ROBIN: u8 = 1;

const MATRIX: u8 = 2;

// Requesters are the bits of a word, so that with room for more no width counts.
pub(crate) fn width(places: usize, n: u32) -> u32
    ensures value { result ≡ width places n }
    ensures word { 1 ≤ result → places ≤ 32 }
{
    if places <= 32 { n } else { 0 }
}

#[tactic(auto, unfolding(crate::specs::Arbiter::known))]
pub(crate) fn is_known(places: usize, code: u8, n: u32) -> bool
    ensures { result ≡ known places code n }
{
    matches!(code, ROUND_ROBIN | MATRIX) && 1 <= n && n as usize <= places
}

// A known matrix, which alone has rows.
pub(crate) fn is_matrix(places: usize, code: u8, n: u32) -> bool
    ensures { result ≡ (known places code n && eqb code matrix) }
{
    is_known(places, code, n) && code == MATRIX
}

// A matrix has no pointer to be asked for.
#[tactic(auto, unfolding(crate::specs::Arbiter::usable, crate::specs::Arbiter::known))]
pub(crate) fn is_usable(places: usize, code: u8, n: u32, pointer: u32) -> bool
    ensures { result ≡ usable places code n pointer }
{
    is_known(places, code, n) && (code != ROUND_ROBIN || pointer < n)
}

// One test at the end, so that the rows are taken many at a time.
fn are_zero(rows: &[u32]) -> bool
    ensures { result ≡ list_all (λ (row : ℕ). row == 0) rows.now }
{
    let mut any = 0;
    for row in rows {
        any |= *row;
    }
    any == 0
}

// Whether all rows from `from` on are zero.
pub(crate) fn are_blank(from: u32, rows: &[u32]) -> bool
    requires { from ≤ length rows.now }
    ensures { result ≡ blank_from from (length rows.now) rows.now }
{
    are_zero(&rows[from as usize..])
}

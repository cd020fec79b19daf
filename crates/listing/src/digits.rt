// Numbers as text.
ghost use Rattle.std.specs.Prelude.{◌≡◌, ◌+◌, ◌≤◌, ◌<◌, eqb, length, take};
ghost use Rattle.std.specs.List.{prefix_len};
ghost use Rattle.listing.specs.Digits.{glyph as digits_glyph, decimal as digits_decimal, last_digits, hex as digits_hex};
ghost use Rattle.listing.specs.Inside.{Laid, Spelled};

// A number's last ten decimal digits, and how many of them lead and are zeros: a number of up to ten digits stands after them.
#[derive(Drop)]
pub(crate) struct Spelling {
    pub number: u64,
    digits: [u8; 10],
    zeros: usize,
    ghost spelled: { Spelled number digits zeros },
}

// The last ten decimal digits of a number, zeros in front. No division waits for another.
#[tactic(auto, using(crate::proofs::Decimals::ten_digits))]
fn ten(n: u64) -> [u8; 10]
    ensures { result ≡ last_digits 10 10 n }
{
    [
        48 + (n / 1000000000 % 10) as u8,
        48 + (n / 100000000 % 10) as u8,
        48 + (n / 10000000 % 10) as u8,
        48 + (n / 1000000 % 10) as u8,
        48 + (n / 100000 % 10) as u8,
        48 + (n / 10000 % 10) as u8,
        48 + (n / 1000 % 10) as u8,
        48 + (n / 100 % 10) as u8,
        48 + (n / 10 % 10) as u8,
        48 + (n % 10) as u8,
    ]
}

// How many of the ten lead and are zeros. The last digit always shows.
fn zeros(digits: &[u8; 10]) -> usize
    ensures { result ≡ prefix_len (λ d. eqb d 48) (take 9 digits.now) }
{
    digits[..9].iter().take_while(|d| **d == b'0').count()
}

impl Spelling {
    #[tactic(auto, using(crate::proofs::Leading::spelled))]
    pub(crate) fn of(number: u64) -> Self
        ensures { result.number ≡ number }
    {
        let digits = ten(number);
        let zeros = zeros(&digits);
        Spelling {
            number,
            digits,
            zeros,
        }
    }

    // The digits after the leading zeros.
    pub(crate) fn write(&self, out: &mut [u8], at: usize) -> usize
        requires { (self.now.number < 10000000000) × (at + length (digits_decimal self.now.number) ≤ length out.old) }
        ensures { Laid out.old at (digits_decimal self.now.number) out.new result }
    {
        let shown = &self.digits[self.zeros..];
        let end = at + shown.len();
        out[at..end].copy_from_slice(shown);
        end
    }
}

#[tactic(auto, using(crate::proofs::Decimals::decimal_ten))]
pub(crate) fn decimal(out: &mut [u8], at: usize, n: u64) -> usize
    requires { (n < 10000000000) × (at + 10 ≤ length out.old) }
    ensures { Laid out.old at (digits_decimal n) out.new result × (result ≤ at + 10) }
{
    let spelling = Spelling::of(n);
    spelling.write(out, at)
}

// `0` to `9`, then `a` to `f`, which stand 39 further on.
#[tactic(auto, using(crate::proofs::Decimals::glyph_sum))]
fn glyph(d: u32) -> u8
    requires { d < 16 }
    ensures { result ≡ digits_glyph d }
{
    (48 + d + (d + 6) / 16 * 39) as u8
}

pub(crate) fn hex(out: &mut [u8], at: usize, n: u32) -> usize
    requires { at + 8 ≤ length out.old }
    ensures { Laid out.old at (digits_hex n) out.new result }
{
    out[at] = glyph(n / 268435456 % 16);
    out[at + 1] = glyph(n / 16777216 % 16);
    out[at + 2] = glyph(n / 1048576 % 16);
    out[at + 3] = glyph(n / 65536 % 16);
    out[at + 4] = glyph(n / 4096 % 16);
    out[at + 5] = glyph(n / 256 % 16);
    out[at + 6] = glyph(n / 16 % 16);
    out[at + 7] = glyph(n % 16);
    at + 8
}

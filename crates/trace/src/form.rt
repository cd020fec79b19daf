// 8: "block kind, number, count, unused byte, place in the file, or end total wrong", in a block before the end block.
ghost use Rattle.std.specs.Prelude.{false, ◌≡◌, ◌≤◌, length, Some};
ghost use Rattle.trace.specs.Blocks.{kind_of, end_of_body};
ghost use Rattle.trace.specs.Kind.{kind_named, kind_if_right};
ghost use Rattle.trace.specs.Rules.{has_wrong_number, has_wrong_count, has_wrong_unused, has_wrong_order, has_wrong_total};

use crate::{Place, bytes};

// "Byte 0 kind (1 configuration, 2 cycles, 3 end)".
#[derive(Clone, Copy, PartialEq, Eq)]
pub(crate) enum Kind {
    Configuration,
    Cycles,
    End,
}

impl Kind {
    #[tactic(auto, unfolding(crate::specs::Kind::kind_named))]
    fn named(code: u8) -> Option<Self>
        ensures { result ≡ kind_named code }
    {
        match code {
            1 => Some(Kind::Configuration),
            2 => Some(Kind::Cycles),
            3 => Some(Kind::End),
            _ => None,
        }
    }
}

// "bytes 2..5 block number from 0, big-endian"
#[tactic(auto, unfolding(crate::specs::Rules::has_wrong_number))]
fn number_wrong(place: Place, block: &[u8]) -> bool
    requires { 512 ≤ length block.now }
    ensures { result ≡ has_wrong_number place block.now }
{
    u64::from(bytes::four_bytes(block, 2)) != place.number
}

// "byte 1 cycles held (1..7, only in kind 2, else 0)"
#[tactic(auto, unfolding(crate::specs::Rules::has_wrong_count, crate::specs::Kind::kind_named))]
fn count_wrong(kind: Kind, block: &[u8]) -> bool
    requires { (512 ≤ length block.now) × (kind_named (kind_of block.now) ≡ Some kind) }
    ensures { result ≡ has_wrong_count block.now }
{
    let held = block[1];
    match kind {
        Kind::Cycles => held < 1 || 7 < held,
        Kind::Configuration | Kind::End => held != 0,
    }
}

// Where the bytes of the body that have a use end.
#[tactic(auto, unfolding(crate::specs::Blocks::end_of_body, crate::specs::Kind::kind_named))]
fn body_end(kind: Kind, block: &[u8]) -> usize
    requires { (512 ≤ length block.now) × (kind_named (kind_of block.now) ≡ Some kind) }
    ensures { result ≡ end_of_body block.now }
{
    match kind {
        Kind::Configuration => 15,
        Kind::Cycles => 8 + 64 * usize::from(block[1]),
        Kind::End => 12,
    }
}

// "Bytes without a use are zero."
#[tactic(auto, unfolding(crate::specs::Rules::has_wrong_unused), using(crate::proofs::Used::count_end))]
fn unused_wrong(kind: Kind, block: &[u8]) -> bool
    requires { (512 ≤ length block.now) × (kind_named (kind_of block.now) ≡ Some kind) × (has_wrong_count block.now ≡ false) }
    ensures { result ≡ has_wrong_unused block.now }
{
    !bytes::are_zero(block, 6, 8) || !bytes::are_zero(block, body_end(kind, block), 510)
}

// "A file is one configuration block, any number of cycle blocks, one end block."
#[tactic(auto, unfolding(crate::specs::Rules::has_wrong_order, crate::specs::Kind::kind_named))]
fn order_wrong(place: Place, kind: Kind, block: &[u8]) -> bool
    requires { kind_named (kind_of block.now) ≡ Some kind }
    ensures { result ≡ has_wrong_order place block.now }
{
    place.configured == (kind == Kind::Configuration)
}

// "End body: accepted cycles, bytes 8..11 big-endian."
#[tactic(auto, unfolding(crate::specs::Rules::has_wrong_total, crate::specs::Kind::kind_named))]
fn total_wrong(cycles: u64, kind: Kind, block: &[u8]) -> bool
    requires { (512 ≤ length block.now) × (kind_named (kind_of block.now) ≡ Some kind) }
    ensures { result ≡ has_wrong_total cycles block.now }
{
    kind == Kind::End && u64::from(bytes::four_bytes(block, 8)) != cycles
}

// The kind of a block of which none of this is wrong.
#[tactic(auto, using(crate::proofs::Steps::kinds), unfolding(crate::specs::Kind::kind_if_right, crate::specs::Rules::form_wrong))]
pub(crate) fn right_kind(place: Place, cycles: u64, block: &[u8]) -> Option<Kind>
    requires { 512 ≤ length block.now }
    ensures { result ≡ kind_if_right place cycles block.now }
{
    let kind = Kind::named(block[0])?;
    let wrong = number_wrong(place, block)
        || count_wrong(kind, block)
        || unused_wrong(kind, block)
        || order_wrong(place, kind, block)
        || total_wrong(cycles, kind, block);
    if wrong { None } else { Some(kind) }
}

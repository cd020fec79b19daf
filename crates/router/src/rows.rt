// One row of a cycle: the 8 bytes of a port in the 64-byte part.
ghost use Rattle.std.specs.Prelude.{◌≡◌, ◌<◌, length};
ghost use Rattle.rules.specs.Numbers.{row_wrong};
ghost use Rattle.rules.specs.Rows.{kind_at, vc_at, credit_at, payload_at, no_offer, row_zero, legal_offer, row_legal};
ghost use Rattle.router.specs.Rows.{offer_of, offer_at};

use base::{Config, Flit, SINGLE, starts};

// A flit that a port brings, and on which VC.
#[derive(Clone, Copy)]
pub struct Offer {
    pub vc: u8,
    pub flit: Flit,
}

// "The step acts on ports that bring a flit and passes over the rest."
#[derive(Clone, Copy)]
pub enum Row {
    Idle,
    Brings(Offer),
}

// "payload big-endian"
#[tactic(auto, using(trace::proofs::Spelling::four_read))]
fn payload(part: &[u8], i: usize) -> u32
    requires { (length part.now ≡ 64) × (i < 8) }
    ensures { result ≡ payload_at part.now i }
{
    let at = 8 * i;
    u32::from_be_bytes([part[at + 4], part[at + 5], part[at + 6], part[at + 7]])
}

#[tactic(auto, unfolding(crate::specs::Rows::offer_at))]
pub(crate) fn row_of(part: &[u8], i: usize) -> Row
    requires { (length part.now ≡ 64) × (i < 8) }
    ensures { offer_of result ≡ offer_at part.now i }
{
    let at = 8 * i;
    let kind = part[at];
    if kind == 0 {
        return Row::Idle;
    }
    Row::Brings(Offer {
        vc: part[at + 1],
        flit: Flit::new(kind, part[at + 2], payload(part, i)),
    })
}

// "kind (0 no offer)"
pub(crate) fn kind_of(part: &[u8], i: usize) -> u8
    requires { (length part.now ≡ 64) × (i < 8) }
    ensures { result ≡ kind_at part.now i }
{
    part[8 * i]
}

pub(crate) fn vc_of(part: &[u8], i: usize) -> u8
    requires { (length part.now ≡ 64) × (i < 8) }
    ensures { result ≡ vc_at part.now i }
{
    part[8 * i + 1]
}

// "credit (0 none, else 1 + output VC)"
pub(crate) fn credit_of(part: &[u8], i: usize) -> u8
    requires { (length part.now ≡ 64) × (i < 8) }
    ensures { result ≡ credit_at part.now i }
{
    part[8 * i + 3]
}

// "With kind 0, VC, destination and payload are 0."
#[tactic(auto, unfolding(rules::specs::Rows::no_offer))]
fn is_no_offer(part: &[u8], i: usize) -> bool
    requires { (length part.now ≡ 64) × (i < 8) }
    ensures { result ≡ no_offer part.now i }
{
    let at = 8 * i;
    if part[at + 1] != 0 {
        return false;
    }
    if part[at + 2] != 0 {
        return false;
    }
    payload(part, i) == 0
}

// "Ports at or beyond P are all zero."
#[tactic(auto, using(crate::proofs::RowBytes::row_empty, crate::proofs::RowBytes::row_filled))]
fn is_zero(part: &[u8], i: usize) -> bool
    requires { (length part.now ≡ 64) × (i < 8) }
    ensures { result ≡ row_zero part.now i }
{
    let at = 8 * i;
    for k in 0..8 {
        if part[at + k] != 0 {
            return false;
        }
    }
    true
}

// "kind (1 head H, 2 body B, 3 tail T, 4 single S)", "Destination is 0 on B and T.", no "VC, destination .. too large"
#[tactic(auto, unfolding(rules::specs::Rows::legal_offer))]
fn is_legal_offer(config: Config, part: &[u8], i: usize) -> bool
    requires { (length part.now ≡ 64) × (i < 8) }
    ensures { result ≡ legal_offer config part.now i }
{
    let at = 8 * i;
    let kind = part[at];
    if SINGLE < kind {
        return false;
    }
    if config.vcs <= part[at + 1] {
        return false;
    }
    if starts(kind) {
        return part[at + 2] < config.ports;
    }
    part[at + 2] == 0
}

#[tactic(auto, unfolding(rules::specs::Rows::row_legal))]
fn is_row_legal(config: Config, part: &[u8], i: usize) -> bool
    requires { (length part.now ≡ 64) × (i < 8) }
    ensures { result ≡ row_legal config part.now i }
{
    if config.vcs < part[8 * i + 3] {
        return false;
    }
    if part[8 * i] == 0 {
        return is_no_offer(part, i);
    }
    is_legal_offer(config, part, i)
}

// 3: "row breaks the byte rules above, or VC, destination or credit too large"
#[tactic(auto, unfolding(rules::specs::Numbers::row_wrong))]
pub(crate) fn breaks(config: Config, part: &[u8], i: usize) -> bool
    requires { (length part.now ≡ 64) × (i < 8) }
    ensures { result ≡ row_wrong config part.now i }
{
    if i < config.ports as usize {
        return !is_row_legal(config, part, i);
    }
    !is_zero(part, i)
}

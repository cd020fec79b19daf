// The lines, 8 ports to each stage: a wire place is empty or a flit with its VC above it, a home place is empty or 1 + VC.
ghost use Rattle.std.specs.Prelude.{◌≡◌, cond, not, ◌&&◌, ◌≤◌, ◌<◌, eqb, leb, ltb, length};
ghost use Rattle.state.specs.Views.{wire_vc, on_vc, to_vc, wire_of, home_of, flat, total};
ghost use Rattle.state.specs.Sound.{wire_place_legal, wire_legal, home_legal, line_unused};

use crate::flits;
use base::{Config, Flit};

// The wire's place of stage k and port i: empty or legal where it is in use, else zero.
#[tactic(auto, unfolding(crate::specs::Sound::wire_place_legal))]
fn is_wire_place(config: Config, k: usize, i: usize, place: u64) -> bool
    requires { config.ports ≤ 8 }
    ensures { result ≡ cond (ltb k config.forward && ltb i config.ports) (wire_place_legal config place) (eqb place 0) }
{
    if config.forward as usize <= k || config.ports as usize <= i || place == 0 {
        return place == 0;
    }
    let flit = Flit {
        word: place % 274877906944,
    };
    place / 274877906944 < config.vcs as u64 && flits::is_legal(config, flit)
}

// The home line's place of stage k and port i.
fn is_home_place(config: Config, k: usize, i: usize, place: u8) -> bool
    ensures { result ≡ cond (ltb k config.back && ltb i config.ports) (leb place config.vcs) (eqb place 0) }
{
    if k < config.back as usize && i < config.ports as usize {
        place <= config.vcs
    } else {
        place == 0
    }
}

// "wire .. places are empty or legal"; those not in use are zero.
pub(crate) fn is_wire_sound(config: Config, wire: &[u64; 64]) -> bool
    requires { (config.ports ≤ 8) × (config.forward ≤ 8) }
    ensures { result ≡ (wire_legal config wire.now && line_unused config.forward config.ports wire.now) }
{
    wire.iter()
        .enumerate()
        .all(|(m, place)| is_wire_place(config, m / 8, m % 8, *place))
}

// "home places are empty or legal"; those not in use are zero.
pub(crate) fn is_home_sound(config: Config, home: &[u8; 64]) -> bool
    requires { (config.ports ≤ 8) × (config.back ≤ 8) }
    ensures { result ≡ (home_legal config home.now && line_unused config.back config.ports home.now) }
{
    home.iter()
        .enumerate()
        .all(|(m, place)| is_home_place(config, m / 8, m % 8, *place))
}

// Whether a wire place holds a flit on VC v.
pub(crate) fn is_on(v: u8, place: u64) -> bool
    ensures { result ≡ (not (eqb place 0) && eqb (wire_vc place) v) }
{
    place != 0 && place / 274877906944 == v as u64
}

// How many flits of VC v of port i are on the wire.
#[tactic(auto, unfolding(crate::specs::Views::wire_of), using(crate::proofs::Places::flits_none, crate::proofs::Places::flits_more))]
pub(crate) fn on_wire(config: Config, i: usize, v: u8, wire: &[u64; 64]) -> u32
    requires { (config.forward ≤ 8) × (i < 8) }
    ensures { result ≡ length (flat (wire_of config wire.now i v)) }
{
    let mut count = 0u32;
    for k in 0..config.forward as usize {
        count += u32::from(is_on(v, wire[8 * k + i]));
    }
    count
}

// How many credits are on their way home to VC v of port i.
#[tactic(auto, unfolding(crate::specs::Views::home_of), using(crate::proofs::Places::credits_none, crate::proofs::Places::credits_more))]
pub(crate) fn going_home(config: Config, i: usize, v: u8, home: &[u8; 64]) -> u32
    requires { (config.back ≤ 8) × (i < 8) }
    ensures { result ≡ total (home_of config home.now i v) }
{
    let mut count = 0u32;
    for k in 0..config.back as usize {
        count += u32::from(home[8 * k + i] as u32 == v as u32 + 1);
    }
    count
}

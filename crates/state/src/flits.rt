// Flits as a state holds them: whether one is legal, and how it goes on from the flit before it.
ghost use Rattle.std.specs.Prelude.{◌≡◌, not, ◌≤◌};
ghost use Rattle.std.specs.Bool.{xor};
ghost use Rattle.base.specs.Flit.{starts_kind, ends_kind};
ghost use Rattle.state.specs.Sound.{legal_flit};

use base::{Config, Flit, ends, starts};

// Whether some row can bring this flit: the pairs of kind and destination that can come, as the bits of a word.
#[tactic(auto, using(crate::proofs::Pairs::shifted_range, crate::proofs::Pairs::legal_pair, crate::proofs::Pairs::legal_long))]
pub(crate) fn is_legal(config: Config, flit: Flit) -> bool
    requires { config.ports ≤ 8 }
    ensures { result ≡ legal_flit config flit }
{
    let word = flit.word;
    if 274877906944 <= word {
        return false;
    }
    let ports = (1u64 << config.ports) - 1;
    let pairs = ports * 256 + 65536 + 16777216 + ports * 4294967296;
    (pairs >> (word / 4294967296)) % 2 == 1
}

// Whether a flit of this kind can come next, inside a packet or between packets.
pub(crate) fn may_come(inside: bool, kind: u8) -> bool
    ensures { result ≡ xor inside (starts_kind kind) }
{
    inside != starts(kind)
}

// Whether a packet is open after a flit of this kind.
pub(crate) fn stays_open(kind: u8) -> bool
    ensures { result ≡ not (ends_kind kind) }
{
    !ends(kind)
}

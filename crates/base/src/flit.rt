// A flit: one word that holds its kind, its destination and its payload; all zero in an empty slot. Only this file knows where in
// the word they lie.
ghost use Rattle.std.specs.Prelude.{◌≡◌, ◌^◌};
ghost use Rattle.base.specs.Flit.{flit_of, kind_of, destination_of, payload_of, starts_kind, ends_kind, letter_of};

// "1 head H, 2 body B, 3 tail T, 4 single S"
pub const HEAD: u8 = 1;

pub const BODY: u8 = 2;

pub const TAIL: u8 = 3;

pub const SINGLE: u8 = 4;

#[derive(Clone, Copy, PartialEq, Eq)]
pub struct Flit {
    pub word: u64,
}

impl Flit {
    // The flit of a row: its kind, the port that it names (0 on B and T) and its payload.
    #[tactic(auto, unfolding(crate::specs::Flit::flit_of))]
    pub fn new(kind: u8, destination: u8, payload: u32) -> Self
        ensures { result ≡ flit_of kind destination payload }
    {
        Flit {
            word: (kind as u64) * 34359738368
                + (destination as u64) * 4294967296
                + (payload as u64),
        }
    }

    // 0 in an empty slot.
    #[tactic(auto, unfolding(crate::specs::Flit::kind_of))]
    pub fn kind(self) -> u8
        ensures { result ≡ kind_of self }
    {
        (self.word / 34359738368 % 8) as u8
    }

    // The output port that a head or a single names.
    #[tactic(auto, unfolding(crate::specs::Flit::destination_of))]
    pub fn destination(self) -> u8
        ensures { result ≡ destination_of self }
    {
        (self.word / 4294967296 % 8) as u8
    }

    // The payload, which the router only carries.
    #[tactic(auto, unfolding(crate::specs::Flit::payload_of))]
    pub fn payload(self) -> u32
        ensures { result ≡ payload_of self }
    {
        (self.word % 4294967296) as u32
    }
}

// Whether a packet starts with a flit of this kind: H or S.
#[tactic(auto, unfolding(crate::specs::Flit::starts_kind))]
pub fn starts(kind: u8) -> bool
    ensures { result ≡ starts_kind kind }
{
    matches!(kind, HEAD | SINGLE)
}

// Whether a packet ends with a flit of this kind: T or S.
#[tactic(auto, unfolding(crate::specs::Flit::ends_kind))]
pub fn ends(kind: u8) -> bool
    ensures { result ≡ ends_kind kind }
{
    matches!(kind, TAIL | SINGLE)
}

// The letter of a kind in the list; 0 for a number that is no kind.
#[tactic(auto, unfolding(crate::specs::Flit::letter_of))]
pub fn letter(kind: u8) -> u8
    ensures { result ≡ letter_of kind }
{
    match kind {
        HEAD => b'H',
        BODY => b'B',
        TAIL => b'T',
        SINGLE => b'S',
        _ => 0,
    }
}

// The reply of a cycle: per input the credit that reached its sender, per output the flit that left.
ghost use Rattle.std.specs.Prelude.{◌≡◌};
ghost use Rattle.base.specs.Reply.{empty_reply};

// A flit that left: on which VC of its output, from which input and VC, of which kind, with which payload.
#[derive(Clone, Copy, PartialEq, Eq)]
pub struct Departure {
    pub out_vc: u8,
    pub input: u8,
    pub vc: u8,
    pub kind: u8,
    pub payload: u32,
}

// For each input the VC whose credit reached its sender, for each output the flit that left.
#[derive(Clone, Copy, PartialEq, Eq)]
pub struct Reply {
    pub senders: [Option<u8>; 8],
    pub outputs: [Option<Departure>; 8],
}

impl Reply {
    // The reply of a cycle that reports nothing, as of every refused cycle.
    pub fn empty() -> Self
        ensures { result ≡ empty_reply }
    {
        Reply {
            senders: [None; 8],
            outputs: [None; 8],
        }
    }
}

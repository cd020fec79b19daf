// The router's record: what it holds between cycles, and a fresh one.
//
// A channel is a VC of a port; channel i * V + v of the inputs and of the outputs stands at that place of its array, so that the places
// from P * V on are not in use. The struct goes by value at the public entries only.
#![tactic(auto)]

ghost use Rattle.std.specs.Prelude.{◌≡◌};
ghost use Rattle.state.specs.Setters.{set_binding, set_holder};

use arbiter::Arbiter;
use base::Config;

mod arbitration;
mod blankness;
mod building;
mod channels;
mod flits;
mod lines;
mod names;
mod packets;
mod soundness;

pub use blankness::is_blank;
pub use building::{Built, fresh};
pub use soundness::is_sound;

// One VC of one output.
#[derive(Clone, Copy, PartialEq, Eq)]
pub struct OutVc {
    pub output: u8,
    pub vc: u8,
}

// One VC of one input.
#[derive(Clone, Copy, PartialEq, Eq)]
pub struct InVc {
    pub input: u8,
    pub vc: u8,
}

// "An input VC is either unbound or bound to one output and one of its VCs."
#[derive(Clone, Copy, PartialEq, Eq)]
pub enum Binding {
    Unbound,
    Bound(OutVc),
}

// An input VC: what it is bound to, its sender's credit, whether its sender has a packet open, and how many flits are queued.
#[derive(Clone, Copy, PartialEq, Eq)]
pub struct InputVc {
    pub binding: Binding,
    pub credit: u8,
    pub opened: bool,
    pub queued: u8,
}

impl InputVc {
    // The same input VC with this binding.
    pub fn with_binding(self, binding: Binding) -> Self
        ensures { result ≡ set_binding binding self }
    {
        InputVc { binding, ..self }
    }
}

// An output VC: which input VC holds it, if one does, and its credit downstream.
#[derive(Clone, Copy, PartialEq, Eq)]
pub struct OutputVc {
    pub holder: Option<InVc>,
    pub credit: u8,
}

impl OutputVc {
    // The same output VC with this holder.
    pub fn with_holder(self, holder: Option<InVc>) -> Self
        ensures { result ≡ set_holder holder self }
    {
        OutputVc { holder, ..self }
    }
}

// The arbiters: for each output one over all input VCs and one over the inputs, for each input one over its VCs.
#[derive(Clone, Copy, PartialEq, Eq)]
pub struct Arbiters {
    pub vcs: [Arbiter<32>; 8],
    pub inputs: [Arbiter<8>; 8],
    pub outputs: [Arbiter<8>; 8],
}

#[derive(Clone, Copy, PartialEq, Eq)]
pub struct Router {
    pub config: Config,
    pub cycle: u64,
    pub inputs: [InputVc; 32],
    pub outputs: [OutputVc; 32],
    // "The input store is 512 slots": 16 for each channel, the front of its queue in the first
    pub store: [u64; 512],
    // a place for each cycle that a flit, or a credit, is still on its way, the oldest first: 8 ports each
    pub wire: [u64; 64],
    pub home: [u8; 64],
    pub arbiters: Arbiters,
}

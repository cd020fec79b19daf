// The run floor's streams: bytes read until a buffer is full, bytes written, a part handed over to the run entry. What the system answers
// is in no contract; what a part that was handed over comes to is (specs/Handing).
#![tactic(auto)]

mod input;
mod output;
mod passing;
mod whole;

pub use input::{Unread, fill};
pub use output::put;
pub use passing::{Passed, Stop, hand, pass};
pub use whole::{Listed, Unlisted, list};

// How often a read or a write that moves nothing is tried again: a signal may have interrupted it.
pub(crate) const TRIES: u32 = 100;

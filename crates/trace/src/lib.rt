// The 512-byte blocks of a trace: a block judged at its place in the file, and the cycles that it holds.
#![tactic(auto)]

mod bytes;
mod check;
mod cycles;
mod form;
mod judging;
mod place;

pub use cycles::cycle_part;
pub use judging::{Answer, Found, judge};
pub use place::{Place, is_good};

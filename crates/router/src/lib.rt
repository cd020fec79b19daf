// The code of a cycle: judged first, then acted on, phase by phase; equal to the rules. Over it the run entry: many blocks of a trace in a
// call, their lines into the caller's buffer.
#![tactic(auto)]

mod acting;
mod allocation;
mod arbitration;
mod blocks;
mod channel;
mod counts;
mod cycle;
mod entry;
mod intake;
mod judge;
mod leaving;
mod parts;
mod rows;
mod running;
mod switching;

pub use blocks::BLOCK_ROOM;
pub use cycle::step;
pub use entry::{Ran, run};

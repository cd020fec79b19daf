// Shared words: what more than one crate speaks of. The configuration and its one test, a flit, the reply of a cycle, the numbers
// of document 01's table and its bounds. In specs and proofs also sets of small numbers as the bits of a word.
#![tactic(auto)]

mod bounds;
mod config;
mod flit;
mod numbers;
mod refusal;
mod reply;

pub use bounds::{
    CHANNEL_PLACES, CYCLE_LIMIT, FLIT_LIMIT, LARGEST_NUMBER, LARGEST_PLACE, PORT_PLACES, PORTS,
    ROOM, VCS,
};
pub use config::Config;
pub use flit::{BODY, Flit, HEAD, SINGLE, TAIL, ends, letter, starts};
pub use numbers::{
    BLOCK_SHORT, BLOCK_WRONG, CHECK_WRONG, CONFIGURATION_WRONG, CREDIT_PAST_ROOM, DONE, NO_ROOM,
    NO_SENDER_CREDIT, NOT_SOUND, OUT_OF_RANGE, OUT_OF_TURN, ROW_WRONG, RUN_FULL,
};
pub use refusal::Refusal;
pub use reply::{Departure, Reply};

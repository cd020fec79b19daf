// What one cycle is, as definitions (specs/), and their laws (proofs/). No function lives here, only the words of the answer; crates/router
// has the code.
#![tactic(auto)]

use base::{Refusal, Reply};
use state::Router;

// What a cycle gives back: whether it was accepted, or why not, with "the port for 3 to 6", else 0; the router after it, and the reply.
#[derive(Clone, Copy, PartialEq, Eq)]
pub struct Stepped {
    pub verdict: Result<(), Refusal>,
    pub router: Router,
    pub reply: Reply,
}

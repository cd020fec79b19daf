// A block judged at its place in the file: "Order. Block: 9, 7, 8, then 1."
ghost use Rattle.std.specs.Prelude.{◌≡◌, ◌≤◌, length};
ghost use Rattle.trace.specs.Blocks.{block_numbers, config_of};
ghost use Rattle.trace.specs.Judged.{place_after, judged};

use crate::form::Kind;
use crate::{Place, check, form, place};
use base::{Config, Refusal};

// What a block that is not refused is found to be; `Done` after the end block, where no byte follows.
#[derive(Clone, Copy, PartialEq, Eq)]
pub enum Found {
    Configuration(Config),
    Cycles(u8),
    End,
    Done,
}

// What was found, and the place after it.
#[derive(Clone, Copy, PartialEq, Eq)]
pub struct Answer {
    pub place: Place,
    pub found: Result<Found, Refusal>,
}

// By a number of the table that has no place.
fn refusal(number: u8) -> Refusal
    ensures { (result.number ≡ number) × (result.place ≡ 0) }
{
    Refusal { number, place: 0 }
}

// "Configuration body: P, V, D, E, F, B, arbiter code at bytes 8..14."
fn configuration(block: &[u8]) -> Config
    requires { 512 ≤ length block.now }
    ensures { result ≡ config_of block.now }
{
    Config {
        ports: block[8],
        vcs: block[9],
        depth: block[10],
        downstream: block[11],
        forward: block[12],
        back: block[13],
        arbiter: block[14],
    }
}

// What the next block is found to be, by the rules in their order.
#[tactic(auto, using(crate::proofs::Steps::steps), unfolding(crate::specs::Kind::kind_if_right, crate::specs::Kind::kind_named))]
fn read(place: Place, cycles: u64, block: &[u8]) -> Result<Found, Refusal>
    ensures { result ≡ (judged place cycles block.now).found }
{
    if !place::is_good(place, cycles) {
        return Err(refusal(base::NOT_SOUND));
    }
    if place.ended {
        if !block.is_empty() {
            return Err(refusal(base::BLOCK_WRONG));
        }
        return Ok(Found::Done);
    }
    if block.len() < 512 {
        return Err(refusal(base::BLOCK_SHORT));
    }
    if !check::holds(block) {
        return Err(refusal(base::CHECK_WRONG));
    }
    let Some(kind) = form::right_kind(place, cycles, block) else {
        return Err(refusal(base::BLOCK_WRONG));
    };
    match kind {
        Kind::Configuration => {
            let config = configuration(block);
            config.judged()?;
            Ok(Found::Configuration(config))
        }
        Kind::Cycles => Ok(Found::Cycles(block[1])),
        Kind::End => Ok(Found::End),
    }
}

// The place after what was found there: a block was passed, unless none was there to read.
fn after(place: Place, found: Found) -> Place
    requires { place.number ≤ block_numbers }
    ensures { result ≡ place_after place found }
{
    match found {
        Found::Done => place,
        Found::Configuration(_) | Found::Cycles(_) | Found::End => Place {
            number: place.number + 1,
            configured: true,
            ended: matches!(found, Found::End),
        },
    }
}

// The next block at a place, where so many cycles are accepted. An empty block is the end of the input.
pub fn judge(place: Place, cycles: u64, block: &[u8]) -> Answer
    ensures { result ≡ judged place cycles block.now }
{
    let found = read(place, cycles, block);
    // "a refused block leaves the reading place"
    let place = match found {
        Ok(found) => after(place, found),
        Err(_) => place,
    };
    Answer { place, found }
}

// The end of a run, parts of a wrong length, and offers that are refused.
use crate::building::{busy, no_reply, turns};
use crate::refusing::refused;
use base::{CREDIT_PAST_ROOM, NO_SENDER_CREDIT, OUT_OF_TURN, ROW_WRONG, RUN_FULL};
use check::expect;

// Cycle 999,999,999 is accepted and is the last; an empty one alters the count alone.
pub(crate) fn last_cycle() {
    let part = [0u8; 64];
    let mut before = turns();
    before.cycle = 999_999_999;
    let mut end = turns();
    end.cycle = 1_000_000_000;
    let stepped = router::step(before, &part);
    expect(stepped.verdict == Ok(()));
    expect(stepped.router == end);
    expect(stepped.reply == no_reply());
}

// 10, and before 3: whatever the part.
pub(crate) fn run_full() {
    let part = [0u8; 64];
    let mut end = turns();
    end.cycle = 1_000_000_000;
    refused(end, &part, RUN_FULL, 0);
    refused(end, &part[..63], RUN_FULL, 0);
}

// "A cycle part that isn't 64 bytes long gives 3 with port 0".
pub(crate) fn part_lengths() {
    let part = [0u8; 65];
    refused(busy(), &part, ROW_WRONG, 0);
    refused(busy(), &part[..63], ROW_WRONG, 0);
    refused(busy(), &part[..0], ROW_WRONG, 0);
}

// "With kind 0, VC, destination and payload are 0." "Ports at or beyond P are all zero."
pub(crate) fn unused_bytes() {
    // port 1 brings no flit, but a VC, a destination, the last byte of a payload
    let mut vc = [0u8; 64];
    vc[9] = 1;
    refused(busy(), &vc, ROW_WRONG, 1);
    let mut destination = [0u8; 64];
    destination[10] = 1;
    refused(busy(), &destination, ROW_WRONG, 1);
    let mut payload = [0u8; 64];
    payload[15] = 1;
    refused(busy(), &payload, ROW_WRONG, 1);
    // port 2 is at P: a credit; the last byte of all
    let mut credit = [0u8; 64];
    credit[19] = 1;
    refused(busy(), &credit, ROW_WRONG, 2);
    let mut last = [0u8; 64];
    last[63] = 1;
    refused(busy(), &last, ROW_WRONG, 7);
}

// A refused cycle leaves all, though each phase had something to do.
pub(crate) fn refused_offers() {
    // port 1 brings a kind that there is not
    let mut kind = [0u8; 64];
    kind[8] = 5;
    refused(busy(), &kind, ROW_WRONG, 1);
    // port 0 gives a credit where E are
    let mut credit = [0u8; 64];
    credit[3] = 1;
    refused(busy(), &credit, CREDIT_PAST_ROOM, 0);
    // port 1 brings T with no packet open
    let mut turn = [0u8; 64];
    turn[8] = 3;
    refused(busy(), &turn, OUT_OF_TURN, 1);
    // port 0 brings B on VC 0, whose queue is full
    let mut offer = [0u8; 64];
    offer[0] = 2;
    refused(busy(), &offer, NO_SENDER_CREDIT, 0);
}

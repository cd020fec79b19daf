// The store: 512 slots, 16 for each channel, the front of its queue in the first. These three are how a step reaches it, so that where a
// slot stands is known here and to the sound test alone. A channel that there is not is left alone.
#![tactic(auto)]

ghost use Rattle.std.specs.Prelude.{◌≡◌};
ghost use Rattle.store.specs.Store.{front_of, pushed, popped};

use base::{CHANNEL_PLACES, Flit};

// The flit in a channel's first slot.
#[tactic(auto, unfolding(crate::specs::Store::front_of))]
pub fn front(channel: usize, store: &[u64; 512]) -> Flit
    ensures { result ≡ front_of store.now channel }
{
    if CHANNEL_PLACES <= channel {
        return Flit { word: 0 };
    }
    Flit {
        word: store[16 * channel],
    }
}

// Phase 3: a flit joins the end of a queue, of which so many are queued. A full queue stays as it is.
#[tactic(auto, unfolding(crate::specs::Store::pushed))]
pub fn push(channel: usize, queued: u8, flit: Flit, store: &mut [u64; 512])
    ensures { store.new ≡ pushed store.old channel queued flit }
{
    if CHANNEL_PLACES <= channel {
        return;
    }
    if 16 <= queued {
        return;
    }
    store[16 * channel + queued as usize] = flit.word;
}

// Phase 7: the front leaves its queue. All sixteen slots move, so that it need not be told how many are queued.
#[tactic(auto, using(crate::proofs::Slots::pop_beyond))]
pub fn pop(channel: usize, store: &mut [u64; 512])
    ensures { store.new ≡ popped store.old channel }
{
    if CHANNEL_PLACES <= channel {
        return;
    }
    let base = 16 * channel;
    store.copy_within(base + 1..base + 16, base);
    store[base + 15] = 0;
}

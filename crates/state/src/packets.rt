// Queue followed by wire, oldest first, read as packets. A queue starts at the slot `base`.
ghost use Rattle.std.specs.Prelude.{◌≡◌, ◌&&◌, ◌+◌, ◌≤◌, ◌<◌, length};
ghost use Rattle.base.specs.Sizes.{Bounds};
ghost use Rattle.state.specs.Views.{queue_at, queue_of, wire_of, flat};
ghost use Rattle.state.specs.Sound.{all, legal_flit, begins_inside, reads};

use crate::{Binding, InputVc, Router, flits, lines};
use base::{Flit, starts};

// Whether the reading starts inside a packet: never where nothing is bound; else unless the front is H or S for the bound output.
#[tactic(auto, using(crate::proofs::Reading::start_empty, crate::proofs::Reading::start_inside, crate::proofs::Reading::start_front))]
fn starts_inside(base: usize, queued: usize, binding: Binding, store: &[u64; 512]) -> bool
    requires { (base + 16 ≤ 512) × (queued ≤ 16) × (length store.now ≡ 512) }
    ensures { result ≡ begins_inside (queue_at store.now base queued) binding }
{
    let Binding::Bound(to) = binding else {
        return false;
    };
    if queued == 0 {
        return true;
    }
    let front = Flit { word: store[base] };
    !starts(front.kind()) || front.destination() != to.output
}

// "queued flits are legal (destinations too)", and queue followed by wire reads as packets, to where the sender has one open or not.
#[tactic(auto, using(crate::proofs::Naming::channel_fits, crate::proofs::Clauses::base_fits))]
pub(crate) fn reads(router: &Router, i: u8, v: u8, input: InputVc) -> bool
    requires { Bounds 0 router.now.config × (i < router.now.config.ports) × (v < router.now.config.vcs) × (input.queued ≤ 16) }
    ensures { result ≡ (all (legal_flit router.now.config) (queue_of router.now.config router.now.store i v input.queued)
        && reads (queue_of router.now.config router.now.store i v input.queued) (flat (wire_of router.now.config router.now.wire i v))
        input.binding input.opened) }
{
    let config = router.config;
    let base = 16 * ((i as usize) * (config.vcs as usize) + v as usize);
    let queued = input.queued as usize;
    let mut inside = starts_inside(base, queued, input.binding, &router.store);
    for k in 0..queued {
        let flit = Flit {
            word: router.store[base + k],
        };
        if !flits::is_legal(config, flit) {
            return false;
        }
        let kind = flit.kind();
        if !flits::may_come(inside, kind) {
            return false;
        }
        inside = flits::stays_open(kind);
    }
    for j in 0..config.forward as usize {
        let place = router.wire[8 * j + i as usize];
        if !lines::is_on(v, place) {
            continue;
        }
        let flit = Flit {
            word: place % 274877906944,
        };
        let kind = flit.kind();
        if !flits::may_come(inside, kind) {
            return false;
        }
        inside = flits::stays_open(kind);
    }
    inside == input.opened
}

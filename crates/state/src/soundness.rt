// Whether a router handed in is sound.
ghost use Rattle.std.specs.Prelude.{◌≡◌};
ghost use Rattle.state.specs.Sound.{sound};

use crate::{Router, arbitration, channels, lines};
use base::CYCLE_LIMIT;

// "A state handed in is sound when": all clauses. The configuration comes first, so that every index after it is in range.
pub fn is_sound(router: Router) -> bool
    ensures { result ≡ sound router }
{
    let config = router.config;
    if config.judged().is_err() {
        return false;
    }
    if CYCLE_LIMIT < router.cycle {
        return false;
    }
    let wire = router.wire;
    if !lines::is_wire_sound(config, &wire) {
        return false;
    }
    let home = router.home;
    if !lines::is_home_sound(config, &home) {
        return false;
    }
    let arbiters = router.arbiters;
    let vcs = arbiters.vcs;
    let ins = arbiters.inputs;
    let outs = arbiters.outputs;
    if !arbitration::are_sound(config, vcs, ins, outs) {
        return false;
    }
    if !arbitration::are_unused(config, vcs, ins, outs) {
        return false;
    }
    let inputs = router.inputs;
    let outputs = router.outputs;
    if !channels::are_unused(config, inputs, outputs) {
        return false;
    }
    let store = router.store;
    if !channels::are_slots_empty(inputs, &store) {
        return false;
    }
    channels::are_sound(&router)
}

// Whether there is no router: before the configuration block of a file all of it is zero.
ghost use Rattle.std.specs.Prelude.{◌≡◌};
ghost use Rattle.state.specs.Blank.{no_sizes, blank};

use crate::{Router, arbitration, channels, lines};
use base::Config;

// "an all-zero state": the tests of what is not in use, where nothing is.
pub fn is_blank(router: Router) -> bool
    ensures { result ≡ blank router }
{
    let config = router.config;
    let none = Config::none();
    if config != none {
        return false;
    }
    if router.cycle != 0 {
        return false;
    }
    let wire = router.wire;
    if !lines::is_wire_sound(none, &wire) {
        return false;
    }
    let home = router.home;
    if !lines::is_home_sound(none, &home) {
        return false;
    }
    let arbiters = router.arbiters;
    let vcs = arbiters.vcs;
    let ins = arbiters.inputs;
    let outs = arbiters.outputs;
    if !arbitration::are_unused(none, vcs, ins, outs) {
        return false;
    }
    let inputs = router.inputs;
    let outputs = router.outputs;
    if !channels::are_unused(none, inputs, outputs) {
        return false;
    }
    let store = router.store;
    channels::are_slots_empty(inputs, &store)
}

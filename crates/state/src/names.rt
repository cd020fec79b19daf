// "input VC and output VC name each other or neither does"
ghost use Rattle.std.specs.Prelude.{◌≡◌, ◌<◌};
ghost use Rattle.state.specs.Sound.{binding_is, holder_is};
ghost use Rattle.state.specs.Testing.{place_of, place_bound, place_held, input_names, output_names};

use crate::{Binding, InVc, OutVc};
use base::{CHANNEL_PLACES, Config};

// The place of channel v of port i in the arrays; beyond P and V some place.
fn place(config: Config, i: u8, v: u8) -> usize
    ensures { result ≡ place_of config i v }
{
    ((i as usize) * (config.vcs as usize) + (v as usize)) % CHANNEL_PLACES
}

// The place of what an input VC names.
pub(crate) fn bound_place(config: Config, binding: Binding) -> usize
    ensures { (result ≡ place_bound config binding) × (result < 32) }
{
    let Binding::Bound(to) = binding else {
        return 0;
    };
    place(config, to.output, to.vc)
}

// The place of what an output VC names.
pub(crate) fn held_place(config: Config, holder: Option<InVc>) -> usize
    ensures { (result ≡ place_held config holder) × (result < 32) }
{
    let Some(by) = holder else {
        return 0;
    };
    place(config, by.input, by.vc)
}

// Whether input VC v of port i is the holder.
fn is_held_by(i: u8, v: u8, holder: Option<InVc>) -> bool
    ensures { result ≡ holder_is i v holder }
{
    holder == Some(InVc { input: i, vc: v })
}

// Whether this is bound to VC w of output o.
fn is_bound_to(o: u8, w: u8, binding: Binding) -> bool
    ensures { result ≡ binding_is o w binding }
{
    binding == Binding::Bound(OutVc { output: o, vc: w })
}

// What input VC v of port i names is held by it, or it names nothing.
pub(crate) fn is_input_named(
    config: Config,
    i: u8,
    v: u8,
    binding: Binding,
    holder: Option<InVc>,
) -> bool
    ensures { result ≡ input_names config i v binding holder }
{
    let Binding::Bound(to) = binding else {
        return true;
    };
    to.output < config.ports && to.vc < config.vcs && is_held_by(i, v, holder)
}

// What output VC w of port o names is bound to it, or it names nothing.
pub(crate) fn is_output_named(
    config: Config,
    o: u8,
    w: u8,
    holder: Option<InVc>,
    binding: Binding,
) -> bool
    ensures { result ≡ output_names config o w holder binding }
{
    let Some(by) = holder else {
        return true;
    };
    by.input < config.ports && by.vc < config.vcs && is_bound_to(o, w, binding)
}

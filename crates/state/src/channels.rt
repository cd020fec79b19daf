// The channels, each with its input VC and its output VC.
ghost use Rattle.std.specs.Prelude.{◌≡◌, ◌&&◌, ◌||◌, ℕ, ◌+◌, ◌*◌, ◌≤◌, ◌<◌, eqb, ltb, length, get_or};
ghost use Rattle.base.specs.Search.{every};
ghost use Rattle.base.specs.Sizes.{Bounds};
ghost use Rattle.state.specs.Sound.{credits_whole, every_channel, input_unused, output_unused, channels_unused, slots_empty};
ghost use Rattle.state.specs.Testing.{input_sound, names_pass, channel_sound};

use crate::{Binding, InVc, InputVc, OutputVc, Router, lines, names, packets};
use base::{CHANNEL_PLACES, Config};

// "sender credit + wire + queue + credits going home = D"
#[tactic(auto, unfolding(crate::specs::Sound::credits_whole), using(crate::proofs::Places::wire_few, crate::proofs::Places::home_few))]
fn are_credits_whole(router: &Router, i: u8, v: u8, input: InputVc) -> bool
    requires { Bounds 0 router.now.config × (i < router.now.config.ports) }
    ensures { result ≡ credits_whole router.now.config router.now.wire router.now.home i v input }
{
    let config = router.config;
    let wired = lines::on_wire(config, i as usize, v, &router.wire);
    let homing = lines::going_home(config, i as usize, v, &router.home);
    input.credit as u32 + wired + input.queued as u32 + homing == config.depth as u32
}

// One input VC: its credits, its queue, its packets.
#[tactic(auto, unfolding(crate::specs::Testing::input_sound), using(crate::proofs::Clauses::queued_fits))]
fn is_input_sound(router: &Router, i: u8, v: u8, input: InputVc) -> bool
    requires { Bounds 0 router.now.config × (i < router.now.config.ports) × (v < router.now.config.vcs) }
    ensures { result ≡ input_sound router.now.config router.now.store router.now.wire router.now.home i v input }
{
    are_credits_whole(router, i, v, input) && packets::reads(router, i, v, input)
}

// One channel's output credit, and the names of both its VCs: what holds the output VC it names, and what the input VC it names is
// bound to.
#[tactic(auto, unfolding(crate::specs::Testing::names_pass))]
fn are_names_sound(
    config: Config,
    i: u8,
    v: u8,
    input: InputVc,
    output: OutputVc,
    holder: Option<InVc>,
    binding: Binding,
) -> bool
    ensures { result ≡ names_pass config i v input output holder binding }
{
    output.credit <= config.downstream
        && names::is_input_named(config, i, v, input.binding, holder)
        && names::is_output_named(config, i, v, output.holder, binding)
}

// Every clause of one channel.
#[tactic(auto, unfolding(crate::specs::Testing::channel_sound))]
fn is_channel_sound(router: &Router, i: u8, v: u8) -> bool
    requires { Bounds 0 router.now.config × (i < router.now.config.ports) × (v < router.now.config.vcs) }
    ensures { result ≡ channel_sound router.now.config router.now.inputs router.now.outputs router.now.store router.now.wire
        router.now.home i v }
{
    let config = router.config;
    let x = (i as usize) * (config.vcs as usize) + v as usize;
    let input = router.inputs[x];
    let output = router.outputs[x];
    let there = router.outputs[names::bound_place(config, input.binding)];
    let back = router.inputs[names::held_place(config, output.holder)];
    are_names_sound(config, i, v, input, output, there.holder, back.binding)
        && is_input_sound(router, i, v, input)
}

// Every VC of one port.
#[tactic(auto, using(crate::proofs::Passed::passed))]
fn is_port_sound(router: &Router, i: u8) -> bool
    requires { Bounds 0 router.now.config × (i < router.now.config.ports) }
    ensures { result ≡ every router.now.config.vcs (channel_sound router.now.config router.now.inputs router.now.outputs
        router.now.store router.now.wire router.now.home i) }
{
    for v in 0..router.config.vcs {
        if !is_channel_sound(router, i, v) {
            return false;
        }
    }
    true
}

// Every VC of every port that there is.
#[tactic(auto, using(crate::proofs::Passed::passed))]
pub(crate) fn are_sound(router: &Router) -> bool
    requires { Bounds 0 router.now.config }
    ensures { result ≡ every_channel router.now.config (channel_sound router.now.config router.now.inputs router.now.outputs
        router.now.store router.now.wire router.now.home) }
{
    for i in 0..router.config.ports {
        if !is_port_sound(router, i) {
            return false;
        }
    }
    true
}

fn is_input_unused(input: InputVc) -> bool
    ensures { result ≡ input_unused input }
{
    matches!(input.binding, Binding::Unbound)
        && input.credit == 0
        && !input.opened
        && input.queued == 0
}

fn is_output_unused(output: OutputVc) -> bool
    ensures { result ≡ output_unused output }
{
    output.holder.is_none() && output.credit == 0
}

// channels "beyond P and V"
#[tactic(auto, unfolding(crate::specs::Sound::channels_unused), using(crate::proofs::Made::channels_fit, crate::proofs::Passed::passed))]
pub(crate) fn are_unused(config: Config, inputs: [InputVc; 32], outputs: [OutputVc; 32]) -> bool
    requires { Bounds 0 config }
    ensures { result ≡ channels_unused config inputs outputs }
{
    for x in (config.ports as usize) * (config.vcs as usize)..CHANNEL_PLACES {
        let input = inputs[x];
        let output = outputs[x];
        if !is_input_unused(input) || !is_output_unused(output) {
            return false;
        }
    }
    true
}

// Of the 16 slots from `base` on, those behind the queue are zero.
#[tactic(auto, using(crate::proofs::Passed::passed))]
fn are_empty_behind(base: usize, queued: u8, store: &[u64; 512]) -> bool
    requires { base + 16 ≤ 512 }
    ensures { result ≡ every 16 (λ (k : ℕ). ltb k queued || eqb (get_or store.now (base + k) 0) 0) }
{
    for k in queued as usize..16 {
        if store[base + k] != 0 {
            return false;
        }
    }
    true
}

// "an empty slot is zero"
#[tactic(auto, unfolding(crate::specs::Sound::slots_empty), using(crate::proofs::Passed::passed))]
pub(crate) fn are_slots_empty(inputs: [InputVc; 32], store: &[u64; 512]) -> bool
    ensures { result ≡ slots_empty inputs store.now }
{
    for x in 0..CHANNEL_PLACES {
        let input = inputs[x];
        if !are_empty_behind(16 * x, input.queued, store) {
            return false;
        }
    }
    true
}

// Phase 7: the winners leave.
ghost use Rattle.std.specs.Prelude.{◌≡◌, ℕ, ◌+◌, ◌≤◌, ◌<◌, IfSome, set, replicate};
ghost use Rattle.base.specs.Flit.{kind_of, ends_kind};
ghost use Rattle.store.specs.Store.{front_of, popped};
ghost use Rattle.state.specs.Views.{channel_number};
ghost use Rattle.rules.specs.Intake.{newest};
ghost use Rattle.rules.specs.Allocation.{vc_of};
ghost use Rattle.rules.specs.Departures.{input_left, output_left, departure, Leaving, departures};
ghost use Rattle.router.specs.Picks.{pick_in};

use crate::{channel, counts};
use base::{CHANNEL_PLACES, Config, Departure, Flit, PORT_PLACES, ends};
use state::{Binding, InVc, InputVc, OutputVc};

// Input VCs and output VCs after the departures, and what left.
#[derive(Clone, Copy)]
pub struct VcsAndLeft {
    pub inputs: [InputVc; 32],
    pub outputs: [OutputVc; 32],
    pub left: [Option<Departure>; 8],
}

// "leaves its queue", "T or S unbinds"
fn after_leaving(input: InputVc, ends: bool) -> InputVc
    ensures { result ≡ input_left ends input }
{
    let queued = counts::less_one(input.queued);
    let mut left = input;
    left.queued = queued;
    if ends {
        return left.with_binding(Binding::Unbound);
    }
    left
}

// "costs one output credit", "and frees the output VC"
fn after_taking(output: OutputVc, ends: bool) -> OutputVc
    ensures { result ≡ output_left ends output }
{
    let credit = counts::less_one(output.credit);
    let mut taken = output;
    taken.credit = credit;
    if ends {
        return taken.with_holder(None);
    }
    taken
}

// "takes the output VC's number"
fn departed(out_vc: u8, input: u8, vc: u8, flit: Flit) -> Departure
    ensures { Some result ≡ departure out_vc input vc flit }
{
    Departure {
        out_vc,
        input,
        vc,
        kind: flit.kind(),
        payload: flit.payload(),
    }
}

// An output's winner: the input picked there, and the VC that this input picked.
fn winning(rows: [Option<u8>; 8], picks: [Option<u8>; 8], o: usize) -> Option<InVc>
    requires { o < 8 }
    ensures winner { result ≡ vc_of (pick_in picks) (pick_in rows o) }
    ensures there { IfSome result (λ w. w.input < 8) }
{
    let input = rows[o]?;
    let i = input as usize;
    if PORT_PLACES <= i {
        return None;
    }
    let vc = picks[i]?;
    Some(InVc { input, vc })
}

// Whether the front flit of channel x is the last of its packet.
fn ends_packet(x: usize, store: &[u64; 512]) -> bool
    ensures { result ≡ ends_kind (kind_of (front_of store.now x)) }
{
    let flit = store::front(x, store);
    ends(flit.kind())
}

// "Each winner leaves its queue .. takes the output VC's number, and puts a credit on the way home": what is seen at the output.
fn let_go(
    config: Config,
    winner: InVc,
    out_vc: u8,
    x: usize,
    store: &mut [u64; 512],
    home: &mut [u8; 64],
) -> Departure
    requires { (1 ≤ config.back) × (config.back ≤ 8) × (winner.input < 8) × (winner.vc < 255) }
    ensures seen { Some result ≡ departure out_vc winner.input winner.vc (front_of store.old x) }
    ensures left { store.new ≡ popped store.old x }
    ensures credited { home.new ≡ set home.old (newest config.back winner.input) (winner.vc + 1) }
{
    let flit = store::front(x, store);
    store::pop(x, store);
    home[8 * (config.back as usize - 1) + winner.input as usize] = winner.vc + 1;
    departed(out_vc, winner.input, winner.vc, flit)
}

// "Each winner leaves its queue, costs one output credit, takes the output VC's number, and puts a credit on the way home."
pub(crate) fn leave(
    config: Config,
    before: [InputVc; 32],
    earlier: [OutputVc; 32],
    rows: [Option<u8>; 8],
    picks: [Option<u8>; 8],
    store: &mut [u64; 512],
    home: &mut [u8; 64],
) -> VcsAndLeft
    requires { (config.ports ≤ 8) × (1 ≤ config.back) × (config.back ≤ 8) }
    ensures { ◌≡◌ {A = Leaving} (record {
      inputs = result.inputs;
      outputs = result.outputs;
      store = store.new;
      home = home.new;
      left = result.left;
    })
        (departures config (λ (o : ℕ). vc_of (pick_in picks) (pick_in rows o))
        (record {
          inputs = before;
          outputs = earlier;
          store = store.old;
          home = home.old;
          left = replicate 8 None;
        })) }
{
    let mut inputs = before;
    let mut outputs = earlier;
    let mut left = [None; 8];
    for o in 0..config.ports as usize {
        let Some(winner) = winning(rows, picks, o) else {
            continue;
        };
        let x = channel::number(config, winner.input as usize, winner.vc as usize);
        if CHANNEL_PLACES <= x {
            continue;
        }
        let input = inputs[x];
        let binding = input.binding;
        let Binding::Bound(to) = binding else {
            continue;
        };
        let last = ends_packet(x, store);
        inputs[x] = after_leaving(input, last);
        left[o] = Some(let_go(config, winner, to.vc, x, store, home));
        let y = channel::number(config, o, to.vc as usize);
        if CHANNEL_PLACES <= y {
            continue;
        }
        let output = outputs[y];
        outputs[y] = after_taking(output, last);
    }
    VcsAndLeft {
        inputs,
        outputs,
        left,
    }
}

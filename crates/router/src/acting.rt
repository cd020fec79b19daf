// An accepted cycle, phase by phase, over the parts of a router: structs by value, arrays of numbers lent. It was judged before, so that
// nothing here can fail.
ghost use Rattle.std.specs.Prelude.{◌≡◌, ℕ, ◌+◌, ◌≤◌, length};
ghost use Rattle.base.specs.Sizes.{Bounds};
ghost use Rattle.rules.specs.Intake.{reported};
ghost use Rattle.rules.specs.Departures.{leaving_of};
ghost use Rattle.rules.specs.Step.{sent_out};
ghost use Rattle.router.specs.Fitting.{QueuesFit, OutputCreditsFit};
ghost use Rattle.router.specs.Whole.{router_of, bound_of};

use crate::allocation::Vcs;
use crate::parts::Parts;
use crate::{allocation, arbitration, intake, leaving, switching};
use base::{Config, Reply};

#[derive(Clone, Copy)]
pub struct PartsAndReply {
    pub parts: Parts,
    pub reply: Reply,
}

// Phases 2 to 7; the input VCs are those after phase 1, the home line still has the credits that reached their senders.
pub(crate) fn act(
    config: Config,
    parts: Parts,
    part: &[u8],
    store: &mut [u64; 512],
    wire: &mut [u64; 64],
    home: &mut [u8; 64],
) -> PartsAndReply
    requires { Bounds 1 config × (length part.now ≡ 64) × QueuesFit 16 parts.inputs × OutputCreditsFit 16 parts.outputs
        × (length store.old ≡ 512) × (length wire.old ≡ 64) × (length home.old ≡ 64) }
    ensures after { (n : ℕ) → router_of config (n + 1) result.parts store.new wire.new home.new
        ≡ sent_out (bound_of config n parts store.old wire.old home.old part.now) }
    ensures said { (n : ℕ) → result.reply ≡ record {
      senders = reported config home.old;
      outputs = (leaving_of
          (bound_of config n parts store.old wire.old home.old part.now)).left;
    } }
{
    let inputs1 = parts.inputs;
    let outputs1 = parts.outputs;
    let vcs0 = parts.vcs;
    let ins0 = parts.ins;
    let outs0 = parts.outs;
    let senders = intake::report(config, home);
    intake::advance(home, 0);
    let outputs2 = intake::pay_outputs(config, outputs1, part);
    let inputs3 = intake::land(config, inputs1, wire, store);
    intake::advance(wire, 0);
    let inputs4 = intake::take_offers(config, inputs3, part, wire);
    let sets = allocation::asking(config, inputs4, store);
    let made = allocation::grants(config, outputs2, vcs0, sets);
    let named = allocation::bind(
        config,
        Vcs {
            inputs: inputs4,
            outputs: outputs2,
        },
        made,
    );
    let vcs = allocation::move_on(config, vcs0, made);
    let inputs5 = named.inputs;
    let outputs5 = named.outputs;
    let ready = switching::ready(config, inputs5, outputs5);
    // nobody is ready: phases 6 and 7 change nothing
    if ready == 0 {
        let left = [None; 8];
        return PartsAndReply {
            parts: Parts {
                inputs: inputs5,
                outputs: outputs5,
                vcs,
                ins: ins0,
                outs: outs0,
            },
            reply: Reply {
                senders,
                outputs: left,
            },
        };
    }
    let picks = switching::pick_inputs(config, ready, ins0);
    let table = switching::table_of(config, inputs5, picks);
    let rows = switching::pick_outputs(config, &table, outs0);
    let ins = arbitration::move_on(config, config.vcs as u32, ins0, picks);
    let outs = arbitration::move_on(config, config.ports as u32, outs0, rows);
    let gone = leaving::leave(config, inputs5, outputs5, rows, picks, store, home);
    let inputs = gone.inputs;
    let outputs = gone.outputs;
    let left = gone.left;
    PartsAndReply {
        parts: Parts {
            inputs,
            outputs,
            vcs,
            ins,
            outs,
        },
        reply: Reply {
            senders,
            outputs: left,
        },
    }
}

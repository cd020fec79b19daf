// One cycle: judged, and acted on if no rule refuses it; and the public step, which tests the router that it is handed first.
ghost use Rattle.std.specs.Prelude.{◌≡◌};
ghost use Rattle.rules.specs.declared.Stepped.{Stepped as Answer};
ghost use Rattle.rules.specs.Step.{step_of};
ghost use Rattle.state.specs.Sound.{Sound};
ghost use Rattle.router.specs.Whole.{router_of};

use crate::parts::Parts;
use crate::{acting, intake, judge, parts};
use base::{Config, NOT_SOUND, Refusal, Reply};
use rules::Stepped;
use state::Router;

// A cycle's verdict and reply, with the cycle count and the parts after it.
#[derive(Clone, Copy)]
pub struct SteppedParts {
    pub verdict: Result<(), Refusal>,
    pub cycle: u64,
    pub parts: Parts,
    pub reply: Reply,
}

// A cycle of a router that is known to be sound.
pub(crate) fn inner_step(
    config: Config,
    cycle: u64,
    before: Parts,
    part: &[u8],
    store: &mut [u64; 512],
    wire: &mut [u64; 64],
    home: &mut [u8; 64],
) -> SteppedParts
    requires { Sound (router_of config cycle before store.old wire.old home.old) }
    ensures { ◌≡◌ {A = Answer} (record {
      verdict = result.verdict;
      router = router_of config result.cycle result.parts store.new wire.new home.new;
      reply = result.reply;
    })
        (step_of (router_of config cycle before store.old wire.old home.old) part.now) }
{
    let inputs = before.inputs;
    let outputs = before.outputs;
    let paid = intake::pay_senders(config, inputs, home);
    let verdict = judge::judge(config, cycle, inputs, paid, outputs, part);
    if verdict.is_err() {
        return SteppedParts {
            verdict,
            cycle,
            parts: before,
            reply: Reply::empty(),
        };
    }
    let vcs = before.vcs;
    let ins = before.ins;
    let outs = before.outs;
    let acted = acting::act(
        config,
        Parts {
            inputs: paid,
            outputs,
            vcs,
            ins,
            outs,
        },
        part,
        store,
        wire,
        home,
    );
    let parts = acted.parts;
    let reply = acted.reply;
    SteppedParts {
        verdict,
        cycle: cycle + 1,
        parts,
        reply,
    }
}

// One cycle of any router: 2 where it is not sound, else what the rules of the cycle make of the 64 bytes. A refused cycle leaves the
// router as it was and reports nothing.
pub fn step(router: Router, part: &[u8]) -> Stepped
    ensures { result ≡ step_of router part.now }
{
    if !state::is_sound(router) {
        return Stepped {
            verdict: Err(Refusal {
                number: NOT_SOUND,
                place: 0,
            }),
            router,
            reply: Reply::empty(),
        };
    }
    let config = router.config;
    let mut store = router.store;
    let mut wire = router.wire;
    let mut home = router.home;
    let before = parts::unpack(router);
    let done = inner_step(
        config,
        router.cycle,
        before,
        part,
        &mut store,
        &mut wire,
        &mut home,
    );
    let verdict = done.verdict;
    let after = done.parts;
    let said = done.reply;
    Stepped {
        verdict,
        router: parts::pack(config, done.cycle, after, store, wire, home),
        reply: said,
    }
}

// A cycle that is refused: its number and port, "the state as before and an empty reply".
ghost use Rattle.std.specs.Prelude.{◌≡◌};
ghost use Rattle.base.specs.Refusal.{refusing};
ghost use Rattle.rules.specs.Step.{step_of};

use crate::building::no_reply;
use base::Refusal;
use check::expect;
use state::Router;

#[tactic(auto, using(rules::proofs::Exactness::refused_leaves))]
pub(crate) fn refused(before: Router, part: &[u8], number: u8, port: u8)
    requires { (step_of before part.now).verdict ≡ refusing number port }
{
    let stepped = router::step(before, part);
    let refusal = Refusal {
        number,
        place: port,
    };
    expect(stepped.verdict == Err(refusal));
    expect(stepped.router == before);
    expect(stepped.reply == no_reply());
}

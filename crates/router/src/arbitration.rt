// Arbiters move on after their own pick.
ghost use Rattle.std.specs.Prelude.{◌≡◌, ◌≤◌};
ghost use Rattle.arbiter.specs.Requests.{width};
ghost use Rattle.rules.specs.Allocation.{arbiters_moved};
ghost use Rattle.router.specs.Picks.{pick_in};

use arbiter::Arbiter;
use base::Config;

// Each arbiter of the ports that there are, n wide.
#[tactic(auto, unfolding(rules::specs::Allocation::arbiters_moved))]
pub(crate) fn move_on<const PLACES: usize>(
    config: Config,
    n: u32,
    before: [Arbiter<PLACES>; 8],
    picks: [Option<u8>; 8],
) -> [Arbiter<PLACES>; 8]
    requires { config.ports ≤ 8 }
    ensures { result ≡ arbiters_moved PLACES config (width PLACES n) (pick_in picks) before.entry }
{
    let mut arbiters = before;
    for i in 0..config.ports as usize {
        let Some(pick) = picks[i] else {
            continue;
        };
        let arbiter = arbiters[i];
        arbiters[i] = arbiter.moved(config.arbiter, n, pick as u32);
    }
    arbiters
}

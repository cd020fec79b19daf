// A run between two calls.
#![tactic(auto)]

ghost use Rattle.std.specs.Prelude.{◌≡◌};
ghost use Rattle.runs.specs.Run.{started, between_blocks, stopped_inside, place_right, run_sound};

use base::Config;
use state::Router;
use trace::Place;

// The router, the place in the file, the F lines so far, and whether the list has had its last line.
#[derive(Clone, Copy, PartialEq, Eq)]
pub struct Run {
    pub router: Router,
    pub place: Place,
    pub flits: u64,
    pub over: bool,
}

impl Run {
    // Before the first block of a file.
    pub fn start() -> Self
        ensures { result ≡ started }
    {
        let built = state::fresh(Config::none());
        let router = built.router;
        Run {
            router,
            place: Place::start(),
            flits: 0,
            over: false,
        }
    }
}

// Whether a run, which skips no cycle, can stand between two blocks.
fn is_between(place: Place, cycles: u64) -> bool
    ensures { result ≡ between_blocks place cycles }
{
    if !trace::is_good(place, cycles) {
        return false;
    }
    if place.ended {
        return place.number <= cycles + 2;
    }
    place.number <= cycles + 1
}

// Whether a run can have stopped in the last block, at a cycle that was refused: up to six of its cycles came before that one.
fn is_inside(place: Place, cycles: u64) -> bool
    ensures { result ≡ stopped_inside place cycles }
{
    if !place.configured {
        return false;
    }
    if place.number == 0 {
        return false;
    }
    if place.ended {
        return false;
    }
    let before = Place {
        number: place.number - 1,
        configured: place.configured,
        ended: false,
    };
    for inside in 0..7 {
        if cycles < inside {
            return false;
        }
        if is_between(before, cycles - inside) {
            return true;
        }
    }
    false
}

// Whether some file leads a run to this place with so many cycles accepted.
fn is_place_right(place: Place, cycles: u64, over: bool) -> bool
    ensures { result ≡ place_right place cycles over }
{
    if is_between(place, cycles) {
        return true;
    }
    if over {
        return is_inside(place, cycles);
    }
    false
}

// Whether each part of a run can be: its place, its router, its flits.
pub fn is_sound(run: Run) -> bool
    ensures { result ≡ run_sound run }
{
    let router = run.router;
    let place = run.place;
    if !is_place_right(place, router.cycle, run.over) {
        return false;
    }
    if !place.configured {
        if !state::is_blank(router) {
            return false;
        }
        return run.flits == 0;
    }
    if !state::is_sound(router) {
        return false;
    }
    let config = router.config;
    run.flits <= (config.ports as u64) * router.cycle
}

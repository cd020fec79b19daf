// One arbiter: who wins among the requesters, and how the state moves on after a pick that is kept.
//
// Choice and move are two functions, so that a caller decides which picks are kept. One struct, with room for any number of requesters: the
// router takes 32 for the P*V of an output's VC allocation, and 8 for the V or P of switch allocation.
#![tactic(auto)]

mod asking;
mod given;
mod matrix;
mod order;
mod round_robin;

ghost use Rattle.std.specs.Prelude.{◌≡◌};
ghost use Rattle.arbiter.specs.Requests.{asks, width};
ghost use Rattle.arbiter.specs.Arbiter.{choice, moved, fresh, sound};

use given::ROUND_ROBIN;

// Who asks: requester i when bit i of the set is 1.
#[derive(Clone, Copy)]
pub struct Requests {
    pub set: u32,
}

// The round-robin pointer, and for each requester the row of those that it beats.
#[derive(Clone, Copy, PartialEq, Eq)]
pub struct Arbiter<const PLACES: usize> {
    pub pointer: u32,
    pub rows: [u32; PLACES],
}

impl<const PLACES: usize> Arbiter<PLACES> {
    // A fresh arbiter of this kind and width; all zero where there is none.
    pub fn fresh(code: u8, n: u32) -> Self
        ensures { result ≡ fresh PLACES code (width PLACES n) }
    {
        let n = given::width(PLACES, n);
        let mut rows = [0u32; PLACES];
        if given::is_matrix(PLACES, code, n) {
            matrix::order(n, &mut rows);
        }
        Arbiter { pointer: 0, rows }
    }

    // The winner among those of the n that ask, if there is one. Nothing moves.
    pub fn choose(self, code: u8, n: u32, requests: Requests) -> Option<u32>
        ensures { result ≡ choice PLACES code (width PLACES n) (asks requests) self.entry }
    {
        let n = given::width(PLACES, n);
        if !given::is_usable(PLACES, code, n, self.pointer) {
            return None;
        }
        let asking = asking::below(n, requests.set);
        if code == ROUND_ROBIN {
            return round_robin::choose(n, asking, self.pointer);
        }
        let rows = self.rows;
        matrix::choose(n, asking, &rows)
    }

    // The arbiter after requester w has won.
    pub fn moved(self, code: u8, n: u32, w: u32) -> Self
        ensures { result ≡ moved PLACES code (width PLACES n) w self.entry }
    {
        let n = given::width(PLACES, n);
        if !given::is_usable(PLACES, code, n, self.pointer) {
            return self;
        }
        if n <= w {
            return self;
        }
        if code == ROUND_ROBIN {
            return Arbiter {
                pointer: round_robin::next(n, w),
                ..self
            };
        }
        let mut rows = self.rows;
        matrix::defeat(n, w, &mut rows);
        Arbiter { rows, ..self }
    }

    // Whether this is a sound arbiter of this kind and width.
    pub fn is_sound(self, code: u8, n: u32) -> bool
        ensures { result ≡ sound PLACES code (width PLACES n) self.entry }
    {
        let n = given::width(PLACES, n);
        if !given::is_known(PLACES, code, n) {
            return false;
        }
        let own = self.rows;
        let rows: &[u32] = &own;
        if code == ROUND_ROBIN {
            if n <= self.pointer {
                return false;
            }
            return given::are_blank(0, rows);
        }
        if self.pointer != 0 {
            return false;
        }
        if !given::are_blank(n, rows) {
            return false;
        }
        order::is_total(n, rows)
    }
}

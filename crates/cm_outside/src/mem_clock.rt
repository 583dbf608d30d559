ghost use Rattle.std.specs.Prelude.{◌≡◌, ℕ, Option, Some};
ghost use Rattle.cm_outside.specs.Times.{Times, times_from};

use crate::clock::Clock;
use std::marker::Model;

/// A clock that answers the times of a list in milliseconds, one after the other, and then the last again; 0 where the
/// list is empty.
#[derive(Drop)]
pub struct MemClock {
    answers: Vec<u32>,
    at: usize,
}

impl Model for MemClock {
    ghost use Rattle.cm_outside.specs.Times.{MemClockView};

    ghost Value = { MemClockView };

    ghost view = { λ c. record { answers = c.answers.items; at = c.at } };
}

impl MemClock {
    /// A clock with these answers.
    pub fn new(answers: Vec<u32>) -> MemClock
        ensures { result ≡ record { answers = answers.items; at = 0 } }
    {
        MemClock { answers, at: 0 }
    }
}

impl Clock for MemClock {
    ghost coming = { λ c. Some (times_from c.answers c.at) };

    fn now(&mut self) -> i64 {
        let last = self.answers.len().saturating_sub(1);
        let at = self.at.min(last);
        self.at = at + 1;
        match self.answers.get(at) {
            Some(time) => i64::from(*time),
            None => 0,
        }
    }
}

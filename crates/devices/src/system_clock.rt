ghost use Rattle.std.specs.Prelude.{◌≡◌, None, ℕ, pos};

use cm_outside::Clock;
use std::time::{self, SystemTime, UNIX_EPOCH};

/// The clock of the system. It tells nothing of its coming answers.
#[derive(Drop)]
pub struct SystemClock<'a, R: time::Clock> {
    rt: &'a R,
}

impl<'a, R: time::Clock> SystemClock<'a, R> {
    /// The clock of the system that the program runs on.
    pub fn new(rt: &'a R) -> SystemClock<'a, R> {
        SystemClock { rt }
    }
}

/// The greatest time in milliseconds that the clock tells.
const MOST: u128 = 9_223_372_036_854_775_807;

/// The milliseconds from the beginning of 1970 to a time, at most the greatest number of the type; 0 where the time lies before.
fn since_1970(time: SystemTime) -> i64
    ensures { (n : ℕ) × (result ≡ pos n) }
{
    match time.duration_since(UNIX_EPOCH) {
        Ok(since) => since.as_millis().min(MOST) as i64,
        Err(_) => 0,
    }
}

impl<'a, R: time::Clock> Clock for SystemClock<'a, R> {
    ghost coming = { λ s. None };

    /// The milliseconds since the beginning of 1970; 0 where the clock can't be read.
    fn now(&mut self) -> i64 {
        match SystemTime::now(self.rt) {
            Ok(time) => since_1970(time),
            Err(_) => 0,
        }
    }
}

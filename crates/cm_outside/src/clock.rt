ghost use Rattle.std.specs.Prelude.{◌≡◌, IfSome, Option, ℤ, ℕ, pos};
ghost use Rattle.cm_outside.specs.Times.{Ticks, Times};

/// What tells the time. It never fails.
pub trait Clock {
    /// The coming answers, where the clock tells them.
    ghost coming: { Self → Option Times };

    /// The time in milliseconds, at least 0.
    fn now(&mut self) -> i64
        ensures some { (n : ℕ) × (result ≡ pos n) }
        ensures ticks { IfSome (coming self.old) (λ times. Ticks result times (coming self.new)) };
}

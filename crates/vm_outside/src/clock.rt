ghost use Rattle.std.specs.Prelude.{ℕ, ◌-◌, ◌^◌, ◌≤◌, List, Option};
ghost use Rattle.vm_outside.specs.Clock.{Answers};

/// The time of day. It never fails.
pub trait Clock {
    /// The answers that it will give, in order, where it tells them: a list that isn't empty, whose
    /// last one it gives again for ever.
    ghost answers: { Self → Option (List ℕ) };

    /// The time in milliseconds since 1970-01-01T00:00:00Z, at most 2^48 - 1. It may go back.
    fn now_ms(&mut self) -> u64
        ensures small { result ≤ 2 ^ 48 - 1 }
        ensures first { Answers (answers self.old) result (answers self.new) };
}

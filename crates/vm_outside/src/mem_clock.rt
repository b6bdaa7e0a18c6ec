ghost use Rattle.std.specs.Prelude.{◌≡◌, ℕ, ◌+◌, ◌-◌, ◌^◌, ◌<◌, ◌≤◌, Some, drop, vec_len, All};

use crate::Clock;

/// A clock that gives chosen answers, and tells them. The last one it gives again for ever.
#[derive(Drop)]
pub struct MemClock {
    answers: Vec<u64>,
    /// The place of the next answer.
    at: usize,
    ghost within: { at < vec_len answers },
    ghost small: { All (λ t. t ≤ 2 ^ 48 - 1) answers.items },
}

impl MemClock {
    /// A clock of these answers, in milliseconds since 1970-01-01T00:00:00Z: one at least, each at
    /// most 2^48 - 1.
    pub fn new(answers: Vec<u64>) -> MemClock
        requires some { 0 < vec_len answers }
        requires small { All (λ t. t ≤ 2 ^ 48 - 1) answers.items }
        ensures { ⟦<MemClock as Clock>⟧.answers result ≡ Some answers.items }
    {
        MemClock { answers, at: 0 }
    }
}

impl Clock for MemClock {
    ghost answers = { λ clock. Some (drop clock.at clock.answers.items) };

    fn now_ms(&mut self) -> u64 {
        let time = self.answers[self.at];
        if self.at + 1 < self.answers.len() {
            self.at += 1;
        }
        time
    }
}

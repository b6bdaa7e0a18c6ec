ghost use Rattle.std.specs.Prelude.{◌≡◌, ◌-◌, ◌^◌, ◌≤◌, IfSome};

use std::rt;
use std::time::{SystemTime, UNIX_EPOCH};
use vm_outside::Clock;

/// The latest time that a clock answers, in ms since the Unix epoch: in the year 10889.
const LATEST: u128 = (1 << 48) - 1;

/// The system's clock. It tells contracts none of its answers.
///
/// Where the system gives no time, or one after `LATEST`, it answers as it did before: at first 0.
#[derive(Drop)]
pub struct SystemClock<C: rt::Clock + Drop> {
    system: C,
    last: u64,
    ghost small: { last ≤ 2 ^ 48 - 1 },
}

impl<C: rt::Clock + Drop> SystemClock<C> {
    /// A clock that wasn't read yet.
    pub fn new(system: C) -> SystemClock<C>
        ensures system { result.system ≡ system }
        ensures last { result.last ≡ 0 }
    {
        SystemClock { system, last: 0 }
    }
}

impl<C: rt::Clock + Drop> Clock for SystemClock<C> {
    ghost use Rattle.std.specs.Prelude.{None};

    ghost answers = { λ _. None };

    fn now_ms(&mut self) -> u64
        ensures small { result ≤ 2 ^ 48 - 1 }
        ensures kept { result ≡ self.new.last }
    {
        if let Some(time) = time_of(&self.system) {
            self.last = time;
        }
        self.last
    }
}

/// The system's time in ms since the Unix epoch, where it gives one up to `LATEST`.
fn time_of<C: rt::Clock>(system: &C) -> Option<u64>
    ensures { IfSome result (λ time. time ≤ 2 ^ 48 - 1) }
{
    let now = SystemTime::now(system).ok()?;
    let since = now.duration_since(UNIX_EPOCH).ok()?;
    let time = since.as_millis();
    if time <= LATEST {
        Some(time as u64)
    } else {
        None
    }
}

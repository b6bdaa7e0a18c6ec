ghost use Rattle.std.specs.Prelude.{◌≡◌, ◌↔◌, IsTrue};

/// Which calls of an object in memory are to fail, by their numbers. The first call is number 0.
#[derive(Drop)]
pub struct FailingCalls {
    numbers: Vec<u64>,
    /// The number of the next call, up to 2^64 - 1.
    next: u64,
}

impl FailingCalls {
    ghost use Rattle.vm_outside.specs.FailingCalls.{FailsNext, GoesOn};

    /// These calls of an object that wasn't called yet.
    pub fn new(numbers: Vec<u64>) -> FailingCalls
        ensures { result ≡ record { numbers = numbers; next = 0 } }
    {
        FailingCalls { numbers, next: 0 }
    }

    /// Counts a call, and answers whether it is to fail.
    pub fn begin(&mut self) -> bool
        ensures fails { IsTrue result ↔ FailsNext self.old }
        ensures next { GoesOn self.old self.new }
    {
        let call = self.next;
        self.next = call.saturating_add(1);
        self.numbers.contains(&call)
    }
}

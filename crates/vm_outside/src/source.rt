ghost use Rattle.std.specs.Prelude.{◌≡◌, ℕ, ◌<◌, ◌≤◌, ◌↔◌, List, [], length, take};
ghost use Rattle.std.specs.Prelude.{Option, IfOk, OnErr};
ghost use Rattle.vm_outside.specs.Outside.{Gives, Rose, Told};

use crate::Failed;

/// Bytes that come in, as those of standard input.
pub trait Source {
    /// The bytes that it has left to give, in order, where it tells them.
    ghost left: { Self → Option (List ℕ) };

    /// How many of its calls failed, up to 2^64 - 1.
    ghost faults: { Self → ℕ };

    /// Puts bytes at the front of `into` and answers how many, at most the length of `into`. 0 is
    /// the end of the input, and comes only there. What `into` holds after these bytes is open.
    ///
    /// After `Failed`, which is counted, no byte is lost: a later call may go on.
    fn read(&mut self, into: &mut [u8]) -> Result<usize, Failed>
        requires { 0 < length into.old }

        // What `Ok` holds.
        ensures within { IfOk result (λ n. n ≤ length into.old) }
        ensures moved { IfOk result (λ n. Gives (left self.old) (take n into.new) (left self.new)) }
        ensures end { IfOk result (λ n. Told (left self.old) (λ bytes. (n ≡ 0) ↔ (bytes ≡ []))) }

        // What `Failed` leaves, and when it comes.
        ensures kept { OnErr result (left self.new ≡ left self.old) }
        ensures counted { faults self.old ≤ faults self.new }
        ensures cause { OnErr result (Rose (faults self.old) (faults self.new)) };
}

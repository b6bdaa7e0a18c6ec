ghost use Rattle.std.specs.Prelude.{◌≡◌, ℕ, ◌<◌, ◌≤◌, List, length, take, Option, IfOk, OnErr};
ghost use Rattle.vm_outside.specs.Outside.{Takes, Rose};

use crate::Failed;

/// Where bytes go out, as to standard output.
pub trait Sink {
    /// The bytes that it took, in order, where it tells them.
    ghost taken: { Self → Option (List ℕ) };

    /// How many of its calls failed, up to 2^64 - 1.
    ghost faults: { Self → ℕ };

    /// Takes bytes from the front of `bytes` and answers how many, at most all. Taking none of a
    /// piece that isn't empty is a fault, and counted. After `Failed`, which is counted, it has
    /// taken none.
    ///
    /// `write_all` goes on until all are taken.
    fn write(&mut self, bytes: &[u8]) -> Result<usize, Failed>
        // What `Ok` holds.
        ensures within { IfOk result (λ n. n ≤ length bytes.now) }
        ensures moved { IfOk result (λ n.
            Takes (taken self.old) (take n bytes.now) (taken self.new)) }
        ensures nothing { IfOk result (λ n.
            n ≡ 0 → 0 < length bytes.now → Rose (faults self.old) (faults self.new)) }

        // What `Failed` leaves, and when it comes.
        ensures kept { OnErr result (taken self.new ≡ taken self.old) }
        ensures counted { faults self.old ≤ faults self.new }
        ensures cause { OnErr result (Rose (faults self.old) (faults self.new)) };
}

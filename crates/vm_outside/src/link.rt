ghost use Rattle.std.specs.Prelude.{◌≡◌, ℕ, ◌<◌, ◌≤◌, Bool, false, length, IsTrue, IfOk, OnErr};
ghost use Rattle.vm_outside.specs.Outside.{Rose};

use crate::Failed;

/// Connections that others open, one present at a time, as those of a listener.
///
/// The content of connections is not told yet: no clause says which bytes `read` gives or what
/// became of those that `write` took.
pub trait Link {
    /// A connection is present: the one that `read`, `write` and `end` speak of.
    ghost present: { Self → Bool };

    /// How many calls of `next` failed, up to 2^64 - 1.
    ghost accept_faults: { Self → ℕ };

    /// How many calls of `read` failed, up to 2^64 - 1.
    ghost read_faults: { Self → ℕ };

    /// How many calls of `write` failed or took nothing of a piece, up to 2^64 - 1.
    ghost write_faults: { Self → ℕ };

    /// Waits for the next connection, and answers whether there is one, which is present then.
    /// False is the end: no further connection comes.
    ///
    /// After `Failed`, which is counted, none is present.
    fn next(&mut self) -> Result<bool, Failed>
        requires { present self.old ≡ false }
        ensures came { IfOk result (λ came. present self.new ≡ came) }

        // What `Failed` leaves, and when it comes.
        ensures none { OnErr result (present self.new ≡ false) }
        ensures counted { accept_faults self.old ≤ accept_faults self.new }
        ensures cause { OnErr result (Rose (accept_faults self.old) (accept_faults self.new)) }

        // What stays.
        ensures read_faults { read_faults self.new ≡ read_faults self.old }
        ensures write_faults { write_faults self.new ≡ write_faults self.old };

    /// Puts bytes that came over the present connection at the front of `into` and answers how
    /// many, at most the length of `into`. 0 is the end of what comes over it.
    ///
    /// The connection stays present, also after `Failed`, which is counted.
    fn read(&mut self, into: &mut [u8]) -> Result<usize, Failed>
        requires some { 0 < length into.old }
        requires present { IsTrue (present self.old) }
        ensures within { IfOk result (λ n. n ≤ length into.old) }

        // When `Failed` comes.
        ensures counted { read_faults self.old ≤ read_faults self.new }
        ensures cause { OnErr result (Rose (read_faults self.old) (read_faults self.new)) }

        // What stays.
        ensures present { IsTrue (present self.new) }
        ensures accept_faults { accept_faults self.new ≡ accept_faults self.old }
        ensures write_faults { write_faults self.new ≡ write_faults self.old };

    /// Sends bytes from the front of `bytes` over the present connection and answers how many, at
    /// most all. Sending none of a piece that isn't empty is a fault, and counted.
    ///
    /// The connection stays present, also after `Failed`, which is counted.
    fn write(&mut self, bytes: &[u8]) -> Result<usize, Failed>
        requires { IsTrue (present self.old) }
        ensures within { IfOk result (λ n. n ≤ length bytes.now) }
        ensures nothing { IfOk result (λ n.
            n ≡ 0 → 0 < length bytes.now → Rose (write_faults self.old) (write_faults self.new)) }

        // When `Failed` comes.
        ensures counted { write_faults self.old ≤ write_faults self.new }
        ensures cause { OnErr result (Rose (write_faults self.old) (write_faults self.new)) }

        // What stays.
        ensures present { IsTrue (present self.new) }
        ensures accept_faults { accept_faults self.new ≡ accept_faults self.old }
        ensures read_faults { read_faults self.new ≡ read_faults self.old };

    /// Ends the present connection. It never fails.
    fn end(&mut self)
        requires { IsTrue (present self.old) }
        ensures none { present self.new ≡ false }

        // What stays.
        ensures accept_faults { accept_faults self.new ≡ accept_faults self.old }
        ensures read_faults { read_faults self.new ≡ read_faults self.old }
        ensures write_faults { write_faults self.new ≡ write_faults self.old };
}

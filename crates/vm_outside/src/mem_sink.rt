ghost use Rattle.std.specs.Prelude.{◌≡◌, ◌<◌, [], Some};

use crate::failing_calls::FailingCalls;
use crate::{Failed, Sink};
use std::alloc::Global;

/// A sink that keeps what it took in memory, and tells it.
///
/// A test can make it fail at chosen calls and take its bytes in pieces of a chosen size. A call
/// whose memory can't grow answers `Failed` too and counts it, whatever was chosen.
#[derive(Drop)]
pub struct MemSink {
    taken: Vec<u8>,
    /// How many bytes a call takes at most.
    most: usize,
    calls: FailingCalls,
    failed: u64,
    ghost some: { 0 < most },
}

impl MemSink {
    ghost use Rattle.vm_outside.specs.MemSink.{calls_of};

    /// A sink that took nothing yet, whose calls with these numbers, counted from 0, fail.
    pub fn new(alloc: Global, failing: Vec<u64>) -> MemSink
        ensures taken { ⟦<MemSink as Sink>⟧.taken result ≡ Some [] }
        ensures faults { ⟦<MemSink as Sink>⟧.faults result ≡ 0 }
        ensures calls { calls_of result ≡ record { numbers = failing; next = 0 } }
    {
        MemSink::in_pieces(alloc, usize::MAX, failing)
    }

    /// A sink that took nothing yet, and fails only where memory runs out.
    pub fn steady(alloc: Global) -> MemSink
        ensures taken { ⟦<MemSink as Sink>⟧.taken result ≡ Some [] }
        ensures faults { ⟦<MemSink as Sink>⟧.faults result ≡ 0 }
        ensures steady { (calls_of result).numbers.items ≡ [] }
    {
        MemSink::new(alloc, Vec::new(alloc))
    }

    /// As `new`, with at most `most` bytes a call.
    pub fn in_pieces(alloc: Global, most: usize, failing: Vec<u64>) -> MemSink
        requires { 0 < most }
        ensures taken { ⟦<MemSink as Sink>⟧.taken result ≡ Some [] }
        ensures faults { ⟦<MemSink as Sink>⟧.faults result ≡ 0 }
        ensures calls { calls_of result ≡ record { numbers = failing; next = 0 } }
    {
        MemSink {
            taken: Vec::new(alloc),
            most,
            calls: FailingCalls::new(failing),
            failed: 0,
        }
    }

    /// The bytes that it took.
    pub fn bytes(&self) -> &[u8]
        ensures { ⟦<MemSink as Sink>⟧.taken self.now ≡ Some result.now }
    {
        &self.taken
    }
}

impl Sink for MemSink {
    ghost use Rattle.std.specs.Prelude.{◌≤◌, ◌++◌, length, take, IfOk, OnErr, IsErr};
    ghost use Rattle.vm_outside.specs.FailingCalls.{FailsNext, GoesOn};
    ghost use Rattle.vm_outside.specs.MemSink.{calls_of, faults_of, taken_of};
    ghost use Rattle.vm_outside.specs.Outside.{CountsEach};

    ghost taken = { λ sink. Some (taken_of sink) };

    ghost faults = { faults_of };

    fn write(&mut self, bytes: &[u8]) -> Result<usize, Failed>
        // What each sink promises.
        ensures within { IfOk result (λ n. n ≤ length bytes.now) }
        ensures moved { IfOk result (λ n.
            taken_of self.new ≡ taken_of self.old ++ take n bytes.now) }
        ensures some { IfOk result (λ n. 0 < length bytes.now → 0 < n) }
        ensures kept { OnErr result (taken_of self.new ≡ taken_of self.old) }
        ensures counted { CountsEach result (faults_of self.old) (faults_of self.new) }

        // It fails at the calls that were chosen, and at others only where memory can't grow.
        ensures chosen { FailsNext (calls_of self.old) → IsErr result }
        ensures call { GoesOn (calls_of self.old) (calls_of self.new) }
    {
        let n = bytes.len().min(self.most);
        if self.calls.begin() || self.taken.extend_from_slice(&bytes[..n]).is_err() {
            self.failed = self.failed.saturating_add(1);
            return Err(Failed);
        }
        Ok(n)
    }
}

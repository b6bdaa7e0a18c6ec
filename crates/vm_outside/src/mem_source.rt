ghost use Rattle.std.specs.Prelude.{◌≡◌, ◌<◌, ◌≤◌, [], Some, vec_len};

use crate::failing_calls::FailingCalls;
use crate::{Failed, Source};
use std::alloc::Global;

/// A source over bytes in memory, which tells them.
///
/// A test can make it fail at chosen calls and give its bytes in pieces of a chosen size.
#[derive(Drop)]
pub struct MemSource {
    bytes: Vec<u8>,
    /// How many of the bytes were given.
    at: usize,
    /// How many bytes a call gives at most.
    most: usize,
    calls: FailingCalls,
    failed: u64,
    ghost within: { at ≤ vec_len bytes },
    ghost some: { 0 < most },
}

impl MemSource {
    ghost use Rattle.vm_outside.specs.MemSource.{calls_of};

    /// A source of these bytes whose calls with these numbers, counted from 0, fail.
    pub fn new(bytes: Vec<u8>, failing: Vec<u64>) -> MemSource
        ensures left { ⟦<MemSource as Source>⟧.left result ≡ Some bytes.items }
        ensures faults { ⟦<MemSource as Source>⟧.faults result ≡ 0 }
        ensures calls { calls_of result ≡ record { numbers = failing; next = 0 } }
    {
        MemSource::in_pieces(bytes, usize::MAX, failing)
    }

    /// A source of these bytes that never fails.
    pub fn steady(alloc: Global, bytes: Vec<u8>) -> MemSource
        ensures left { ⟦<MemSource as Source>⟧.left result ≡ Some bytes.items }
        ensures faults { ⟦<MemSource as Source>⟧.faults result ≡ 0 }
        ensures steady { (calls_of result).numbers.items ≡ [] }
    {
        MemSource::new(bytes, Vec::new(alloc))
    }

    /// As `new`, with at most `most` bytes a call.
    pub fn in_pieces(bytes: Vec<u8>, most: usize, failing: Vec<u64>) -> MemSource
        requires { 0 < most }
        ensures left { ⟦<MemSource as Source>⟧.left result ≡ Some bytes.items }
        ensures faults { ⟦<MemSource as Source>⟧.faults result ≡ 0 }
        ensures calls { calls_of result ≡ record { numbers = failing; next = 0 } }
    {
        MemSource {
            bytes,
            at: 0,
            most,
            calls: FailingCalls::new(failing),
            failed: 0,
        }
    }
}

impl Source for MemSource {
    ghost use Rattle.std.specs.Prelude.{◌↔◌, ◌++◌, length, take, IfOk, OnErr, IsErr};
    ghost use Rattle.vm_outside.specs.FailingCalls.{FailsNext, GoesOn};
    ghost use Rattle.vm_outside.specs.MemSource.{calls_of, faults_of, left_of};
    ghost use Rattle.vm_outside.specs.Outside.{CountsEach};

    ghost left = { λ source. Some (left_of source) };

    ghost faults = { faults_of };

    fn read(&mut self, into: &mut [u8]) -> Result<usize, Failed>
        requires { 0 < length into.old }

        // What each source promises.
        ensures within { IfOk result (λ n. n ≤ length into.old) }
        ensures moved { IfOk result (λ n. left_of self.old ≡ take n into.new ++ left_of self.new) }
        ensures end { IfOk result (λ n. (n ≡ 0) ↔ (left_of self.old ≡ [])) }
        ensures kept { OnErr result (left_of self.new ≡ left_of self.old) }
        ensures counted { CountsEach result (faults_of self.old) (faults_of self.new) }

        // It fails at the calls that were chosen, and at no other.
        ensures chosen { IsErr result ↔ FailsNext (calls_of self.old) }
        ensures call { GoesOn (calls_of self.old) (calls_of self.new) }
    {
        if self.calls.begin() {
            self.failed = self.failed.saturating_add(1);
            return Err(Failed);
        }
        let n = into.len().min(self.most).min(self.bytes.len() - self.at);
        into[..n].copy_from_slice(&self.bytes[self.at..self.at + n]);
        self.at += n;
        Ok(n)
    }
}

ghost use Rattle.std.specs.Prelude.{◌≡◌, ◌⊎◌, [], IfOk, IsOk, IsErrOf};
ghost use Rattle.vm_patterns.specs.MemPatterns.{calls_of, refusals_of};
ghost use Rattle.vm_outside.specs.Outside.{raised};
ghost use Rattle.vm_patterns.specs.Patterns.{IsPattern};

use crate::mem_pattern::{MemPattern, built};
use std::alloc::Global;
use vm_outside::{FailingCalls, PatternFault, Patterns};

/// Builds patterns by the library `regex`. A test can make it refuse at chosen calls.
#[derive(Drop)]
pub struct MemPatterns {
    alloc: Global,
    calls: FailingCalls,
    refused: u64,
}

impl MemPatterns {
    /// A builder whose calls with these numbers, counted from 0, are refused.
    pub fn new(alloc: Global, failing: Vec<u64>) -> MemPatterns
        ensures refusals { refusals_of result ≡ 0 }
        ensures calls { calls_of result ≡ record { numbers = failing; next = 0 } }
    {
        MemPatterns {
            alloc,
            calls: FailingCalls::new(failing),
            refused: 0,
        }
    }

    /// A builder that refuses only what the library does.
    pub fn steady(alloc: Global) -> MemPatterns
        ensures refusals { refusals_of result ≡ 0 }
        ensures steady { (calls_of result).numbers.items ≡ [] }
    {
        MemPatterns::new(alloc, Vec::new(alloc))
    }

    /// How many texts were refused, up to 2^64 - 1.
    pub fn refusals(&self) -> u64
        ensures { result ≡ refusals_of self.now }
    {
        self.refused
    }

    /// Counts a refusal.
    fn refuse(&mut self) -> PatternFault
        ensures fault { result ≡ PatternFault.Refused }
        ensures refusals { refusals_of self.new ≡ raised (refusals_of self.old) }
        ensures calls { calls_of self.new ≡ calls_of self.old }
    {
        self.refused = self.refused.saturating_add(1);
        PatternFault::Refused
    }
}

impl Patterns for MemPatterns {
    ghost use Rattle.std.specs.Prelude.{if◌then◌else◌};
    ghost use Rattle.vm_outside.specs.FailingCalls.{FailsNext, GoesOn};
    ghost use Rattle.vm_patterns.specs.MemPatterns.{text_of, is_refused};

    type Built = MemPattern;

    ghost IsPattern = { IsPattern };

    ghost refusals = { refusals_of };

    fn build(&mut self, text: &str) -> Result<MemPattern, PatternFault>
        // What each builder promises.
        ensures text { IfOk result (λ pattern. text_of pattern ≡ text.now) }
        ensures pattern { IsOk result → IsPattern text.now }
        ensures syntax { IsErrOf result PatternFault.Syntax → IsPattern text.now → ⊥ }
        ensures counted { refusals_of self.new
            ≡ (if is_refused result then raised (refusals_of self.old) else refusals_of self.old) }

        // It refuses the calls that were chosen, and of others only patterns.
        ensures chosen { FailsNext (calls_of self.old) → IsErrOf result PatternFault.Refused }
        ensures refused { IsErrOf result PatternFault.Refused
            → FailsNext (calls_of self.old) ⊎ IsPattern text.now }
        ensures call { GoesOn (calls_of self.old) (calls_of self.new) }
    {
        if self.calls.begin() {
            return Err(self.refuse());
        }
        match built(self.alloc, text) {
            Ok(pattern) => Ok(pattern),
            Err(PatternFault::Refused) => Err(self.refuse()),
            Err(fault) => Err(fault),
        }
    }
}

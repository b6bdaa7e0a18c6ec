ghost use Rattle.std.specs.Prelude.{◌≡◌, ⊤, [], false, Ok, None, IsErrOf};
ghost use Rattle.vm_outside.specs.Outside.{raised};

use crate::{Pattern, PatternFault, Patterns};
use std::alloc::AllocError;
use vm_base::{List, Text};

/// A builder that refuses each text, and counts that. A program that matches no patterns hands it
/// in.
#[derive(Debug, Drop)]
pub struct NoPatterns {
    /// How many texts were refused, up to 2^64 - 1.
    pub refusals: u64,
}

impl NoPatterns {
    /// A builder that wasn't asked yet.
    pub fn new() -> NoPatterns
        ensures { ⟦<NoPatterns as Patterns>⟧.refusals result ≡ 0 }
    {
        NoPatterns { refusals: 0 }
    }
}

impl Patterns for NoPatterns {
    type Built = NoPattern;

    ghost IsPattern = { λ _. ⊤ };

    ghost refusals = { λ patterns. patterns.refusals };

    fn build(&mut self, _text: &str) -> Result<NoPattern, PatternFault>
        ensures refused { IsErrOf result PatternFault.Refused }
        ensures counted { self.new.refusals ≡ raised self.old.refusals }
    {
        self.refusals = self.refusals.saturating_add(1);
        Err(PatternFault::Refused)
    }
}

/// The pattern that `NoPatterns` never builds: it matches no value.
#[derive(Debug, Drop)]
pub struct NoPattern;

impl Pattern for NoPattern {
    ghost text = { λ _. [] };

    ghost matches = { λ _ _. false };

    ghost groups_of = { λ _ _. None };

    fn whole(&mut self, _value: &str) -> Result<bool, AllocError>
        ensures { result ≡ Ok false }
    {
        Ok(false)
    }

    fn groups(&mut self, _value: &str) -> Result<Option<List<Text>>, AllocError>
        ensures { result ≡ Ok None }
    {
        Ok(None)
    }
}

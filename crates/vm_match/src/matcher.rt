//! A selector with its patterns built.

ghost use Rattle.std.specs.Prelude.{◌≡◌, ◌+◌, ◌≤◌, IfOk};
ghost use Rattle.vm_labels.specs.Selected.{selects};
ghost use Rattle.vm_match.specs.Built.{Answers, patterns_of};

use crate::MatchFault;
use crate::build::tests_of_lists;
use crate::copy::copy_of_selector;
use crate::test::{Test, meets_any};
use std::alloc::{AllocError, Global};
use std::marker::Model;
use std::sync::ledger::Ledger;
use vm_base::Steps;
use vm_labels::{Labels, Selector};
use vm_outside::{Pattern, Patterns};

/// A selector with its patterns built. Contracts see the selector.
#[derive(Drop)]
pub struct Matcher<M: Pattern> {
    chosen: Selector,
    /// The tests of each list's filters.
    tests: Vec<Vec<Test<M>>>,
}

impl<M: Pattern> Model for Matcher<M> {
    ghost use Rattle.std.specs.Prelude.{◌≡◌, map};
    ghost use Rattle.vm_labels.specs.declared.selector.Selector.{Selector};
    ghost use Rattle.vm_match.specs.Tests.{asked, kept};

    ghost Value = { Selector };

    ghost view = { λ m. m.chosen };

    ghost invariant = { λ m. map (λ list. map (kept M.text) list.items) m.tests.items
        ≡ map (map asked) m.chosen.lists };
}

impl<M: Pattern> Matcher<M> {
    /// Builds the patterns of a selector, which are the texts of its filters with `=~` or `!~`,
    /// list by list and in order, up to the first that fails.
    pub fn build<P: Patterns<Built = M>>(
        alloc: Global,
        selector: &Selector,
        patterns: &mut P,
    ) -> Result<Matcher<M>, MatchFault>
        // It is of this selector.
        ensures selector { IfOk result (λ matcher. matcher ≡ selector.now) }

        // All texts are patterns, or there is a cause.
        ensures answer { Answers P.IsPattern (patterns_of selector.now)
            (P.refusals patterns.old) (P.refusals patterns.new) result }
        ensures counted { P.refusals patterns.old ≤ P.refusals patterns.new }
    {
        let tests = tests_of_lists(alloc, selector.lists.as_slice(), patterns)?;
        let chosen = copy_of_selector(alloc, selector)?;
        Ok(Matcher { chosen, tests })
    }

    /// Whether a label set meets all filters of some list. A label that it lacks has the empty
    /// value. It takes one step. The only error is that memory ran out.
    pub fn selects<L: Ledger>(
        &mut self,
        labels: &Labels,
        steps: &mut Steps<L>,
    ) -> Result<bool, AllocError>
        ensures value { IfOk result (λ met. met ≡ selects M.matches self.old labels.now) }
        ensures kept { self.new ≡ self.old }
        ensures step { steps.new ≡ steps.old + 1 }
    {
        steps.tick();
        meets_any(
            self.chosen.lists.as_slice(),
            self.tests.as_mut_slice(),
            labels,
        )
    }

    /// The selector that it was built from.
    pub fn selector(&self) -> &Selector
        ensures { result.now ≡ self.now }
    {
        &self.chosen
    }
}

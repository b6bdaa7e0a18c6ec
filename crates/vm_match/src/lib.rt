//! Which label sets a selector selects, with its patterns built.
//!
//! A `Matcher` is a selector whose patterns were built once, so that many label sets can be held
//! against it. Begin with `Matcher::build` and `Matcher::selects`. What a selector selects is said
//! in `specs/Selected.antt` of `vm_labels`, and why no matcher can be built in `specs/Built.antt`
//! here. Which texts are patterns and what these match is told by the type of the patterns, as the
//! traits `Patterns` and `Pattern` of `vm_outside` say.
//!
//! It stands on `vm_labels` for label sets and selectors, on `vm_outside` for patterns and on
//! `vm_base` for texts, lists and steps.
#![tactic(auto)]

mod build;
mod copy;
mod fault;
mod matcher;
mod test;

pub use fault::MatchFault;
pub use matcher::Matcher;

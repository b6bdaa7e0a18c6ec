//! The types, limits and definitions that every other crate speaks of. It stands on std alone.
//!
//! `List`, `Text` and `Boxed` hold what a `Vec`, a `String` and a `Box` do, but contracts see them
//! as plain data: a list of items, a list of bytes, a value. So a contract can say which expression
//! a parser gives. `Steps` counts steps for a contract that bounds work.
//!
//! `Sample` is the decimal number of a sample, which contracts see as a whole number of units of
//! 10^-1000, and `Stamped` a sample at its time.
//!
//! Begin with `limits`, the bounds that the program keeps. `specs/Sorted.antt` says what a sorted
//! list is, and `proofs/SortedLaws.antt` has the laws of it that other crates cite.
//! `specs/Number.antt` says what a decimal number is, and `specs/Rounding.antt` what a rounded
//! quotient is. `specs/FirstWrong.antt` says where a text leaves a language, and `specs/Run.antt`
//! what a machine reads, one symbol a step: the readers of other crates are such machines.
#![tactic(auto)]

mod boxed;
mod broken;
pub mod limits;
mod list;
mod sample;
mod sizes;
mod stamped;
mod steps;
mod text;

pub use boxed::Boxed;
pub use broken::Broken;
pub use list::List;
pub use sample::Sample;
pub use stamped::Stamped;
pub use steps::Steps;
pub use text::Text;

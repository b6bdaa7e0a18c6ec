//! What a store means: a machine that keeps the batches that it accepted in one list.
//!
//! Read `specs/Machine.antt` first: the state of a machine, what can happen to it and what it
//! answers. It is said over any question and any answer, and names no query language. A query sees
//! the rows that were accepted when its run was begun. `specs/Eval.antt` says what an instant query
//! comes to, by `specs/Window.antt` and by `specs/Visible.antt` of `vm_dedup`. `Machine` is the
//! plain program that answers it, `Found` gathers an answer in one pass over rows, and `Batches`
//! parts the rows of a body as `specs/Batches.antt` says.
//!
//! It stands on `vm_base` for samples and lists, on `vm_labels` for rows and selectors and on
//! `vm_dedup` for what is seen of a series.
#![tactic(auto)]

mod batches;
mod found;
mod machine;
mod question;
mod refusal;
mod run;
mod window;

pub use batches::Batches;
pub use found::Found;
pub use machine::Machine;
pub use question::{Evaluated, Question, Valued};
pub use refusal::Refusal;
pub use run::Run;

//! What a line of the replay script says, and what the expression of its `query` asks for.
//!
//! `read_command` gives the `Command` of a line, and `read_selector` the `Selector` of an
//! expression. Both give none for what is outside the grammar. `specs/Command.antt` says what a
//! line is, and `specs/Expression.antt` how a selector is spelled. `docs/replay.md` has the script
//! as a whole.
//!
//! It stands on `vm_base` for texts and limits, and on `vm_labels` for selectors and names.
#![tactic(auto)]

mod command;
mod expression;
mod number;

pub use command::{Command, Format, is_body_end, read_command};
pub use expression::read_selector;
pub use number::read_number;

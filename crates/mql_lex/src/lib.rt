//! The tokens of a query's text, and the small types that a query is made of.
//!
//! `specs/Grammar.antt` says which texts are tokens and what may stand between them, apart from how
//! they are found here, and what it is that a text's tokens are. `docs/query-language.md` says the
//! same for people.
//!
//! Begin with `Token` and `tokens`. A text is cut into pieces, each the longest at its place:
//! `piece` takes one byte a step through the phases of `phase`. `operator`, `group` and `span` are
//! words of queries that the layers above share.
//!
//! It stands on `vm_base` for lists and texts, and on the grammars of `vm_labels` for names and of
//! `vm_decimal` for numbers.
#![tactic(auto)]

mod bytes;
mod fault;
mod group;
mod lexer;
mod operator;
mod phase;
mod piece;
mod span;
mod token;

pub use fault::LexFault;
pub use group::{Group, Many, MatchKind, Matching};
pub use lexer::tokens;
pub use operator::Op;
pub use phase::Phase;
pub use piece::Piece;
pub use span::Span;
pub use token::{Token, TokenKind};

//! What a word is to the readers of names, parameters and braces.

ghost use Rattle.std.specs.Prelude.{◌≡◌, ◌≤◌, ◌+◌, length};
ghost use Rattle.mql_lists.specs.Words.{word_of};
ghost use Rattle.mql_lists.specs.Machines.{role_of as class_role, role_of_operator as operator_role, word_role, is_label, is_free};

use crate::class::{Class, class_of};
use mql_lex::{Op, Token};
use vm_labels::FilterOp;

#[derive(Clone, Copy)]
pub(crate) enum Role {
    /// A name that is no reserved word.
    Free,
    /// `or`
    Either,
    /// Another reserved word.
    Reserved,
    /// The operator of a filter.
    Compare(FilterOp),
    /// A string.
    Value,
    /// `,`
    Next,
    /// `)`
    EndRound,
    /// `}`
    EndCurly,
    Other,
}

impl Role {
    /// A name, also a reserved word.
    pub(crate) fn is_label(self) -> bool
        ensures { result ≡ is_label self }
    {
        matches!(self, Role::Free | Role::Either | Role::Reserved)
    }

    pub(crate) fn is_free(self) -> bool
        ensures { result ≡ is_free self }
    {
        matches!(self, Role::Free)
    }
}

#[tactic(auto, unfolding(crate::specs::Machines::word_role))]
pub(crate) fn role_of_token(text: &str, token: Token) -> Role
    requires { token.at + token.len ≤ length text.now }
    ensures { result ≡ word_role (word_of text.now token) }
{
    role_of(class_of(text, token))
}

fn role_of(class: Class) -> Role
    ensures { result ≡ class_role class }
{
    match class {
        Class::Identifier => Role::Free,
        Class::Quoted => Role::Value,
        Class::Operator(op) => role_of_operator(op),
        Class::Assign => Role::Compare(FilterOp::Equal),
        Class::Like => Role::Compare(FilterOp::Matches),
        Class::Unlike => Role::Compare(FilterOp::MatchesNot),
        Class::Comma => Role::Next,
        Class::CloseRound => Role::EndRound,
        Class::CloseCurly => Role::EndCurly,
        Class::Grouping { by: _ } | Class::Pairing(_) | Class::Joining(_) => Role::Reserved,
        Class::Truth | Class::Offset | Class::With | Class::Keep => Role::Reserved,
        _ => Role::Other,
    }
}

fn role_of_operator(op: Op) -> Role
    ensures { result ≡ operator_role op }
{
    match op {
        Op::Or => Role::Either,
        Op::Differs => Role::Compare(FilterOp::Differs),
        Op::Default | Op::If | Op::IfNot | Op::And | Op::Unless => Role::Reserved,
        _ => Role::Other,
    }
}

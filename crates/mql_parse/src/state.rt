//! What stands right before the next token, and what it stands in.

use mql_expr::{Expr, Param, Template};
use mql_lex::{Group, Many, MatchKind, Matching, Op, Span};
use mql_lists::{BracesReader, Class, NamesReader, ParamsReader};
use vm_base::{List, Text};

/// A token's place, in bytes from 0, and what it is to the language.
#[derive(Clone, Copy)]
pub(crate) struct Here {
    pub at: u64,
    pub class: Class,
}

/// A name at its place.
#[derive(Drop)]
pub(crate) struct Heading {
    pub at: u64,
    pub name: Text,
}

/// A call as far as it was read.
#[derive(Drop)]
pub(crate) struct Calling {
    pub at: u64,
    pub name: Text,
    pub args: List<Expr>,
    pub before: Option<Group>,
    pub after: Option<Group>,
}

/// An operator and its left operand.
#[derive(Drop)]
pub(crate) struct Pending {
    pub at: u64,
    pub op: Op,
    /// Whether `bool` stands after it.
    pub truth: bool,
    pub left: Expr,
}

/// A `with` and its templates so far.
#[derive(Drop)]
pub(crate) struct Scoping {
    pub at: u64,
    pub templates: List<Template>,
}

/// What an expression stands in, as far as it was read.
#[derive(Drop)]
pub(crate) enum Open {
    /// `(`
    Round,
    /// `-` at its place.
    Negating(u64),
    /// `+`
    Adding,
    /// An operator with its modifiers.
    Operating(Pending, Matching),
    /// `(` after a name.
    Calling(Calling),
    /// A template's name, its parameters and `=`.
    Defining(Scoping, Heading, List<Param>),
    /// The templates of a `with`.
    Scoped(Scoping),
}

/// What names in parentheses are for.
#[derive(Drop)]
pub(crate) enum NamesFor {
    GroupBefore(Calling, bool),
    GroupAfter(Calling, bool),
    Pairs(Pending, MatchKind),
    Taken(Paired),
}

/// An operator with `on` or `ignoring` and its names.
#[derive(Drop)]
pub(crate) struct Paired {
    pub pending: Pending,
    pub kind: MatchKind,
    pub names: List<Text>,
    /// Which side may have many lines, where it is written.
    pub many: Many,
}

/// An expression and the place of the window or the offset after it.
#[derive(Drop)]
pub(crate) struct Ranging {
    pub at: u64,
    pub inner: Expr,
}

/// What stands right before the next token.
#[derive(Drop)]
pub(crate) enum Last {
    /// An expression is wanted.
    Nothing,
    /// A name.
    Name(Heading),
    /// A call with its group, before its arguments.
    Grouped(Calling),
    /// A call after its arguments.
    Called(Calling),
    /// A call with the group after it.
    Regrouped(Calling),
    /// A word that wants names in parentheses.
    NamesWanted(NamesFor),
    /// Among these names.
    InNames(NamesFor, NamesReader),
    /// In the braces of a selector at this place, which may have a name.
    InBraces(u64, Option<Text>, BracesReader),
    /// An expression that may take a window or an offset.
    Primary(Expr),
    /// A window or an offset.
    Measuring(Measuring),
    /// An expression that takes neither.
    Complete(Expr),
    /// An operator.
    Joining(Joining),
    /// A `with`, as far as its templates.
    Templating(Templating),
}

/// How far a window or an offset was read.
#[derive(Drop)]
pub(crate) enum Measuring {
    /// `[`
    WindowWanted(Ranging),
    /// `[` and a duration.
    WindowRead(Ranging, Span),
    /// A window.
    Windowed(Ranging, Span),
    /// `offset` after an expression, which may have a window.
    OffsetWanted(Ranging, Option<Span>),
    /// `offset -`
    OffsetBack(Ranging, Option<Span>),
}

/// How far an operator was read, with what belongs to it.
#[derive(Drop)]
pub(crate) enum Joining {
    Operator(Pending),
    /// After which `bool` can't stand any more.
    Compared(Pending),
    /// With `on` or `ignoring` and its names.
    Matched(Paired),
    /// And with `group_left` or `group_right`.
    Widened(Paired),
}

/// How far the templates of a `with` were read.
#[derive(Drop)]
pub(crate) enum Templating {
    /// `with` at its place.
    With(u64),
    /// A template or `)` is wanted.
    Wanted(Scoping),
    /// The name of a template.
    Name(Scoping, Heading),
    /// Among the parameters of a template.
    InParams(Scoping, Heading, ParamsReader),
    /// A template with its parameters, before `=`.
    Head(Scoping, Heading, List<Param>),
}

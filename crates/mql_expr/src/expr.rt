//! The tree of a query. (PromQL, "Expression language data types"; MetricsQL adds templates)

use crate::item::Item;
use mql_lex::{Group, Matching, Op, Span};
use vm_base::{Boxed, List, Text};
use vm_decimal::Dec;

/// An expression, with the place in the query's text that its faults are named at, in bytes from 0.
#[cycle(expr)]
#[derive(Debug, Drop)]
pub struct Expr {
    /// The place.
    pub at: u64,
    /// What it is.
    pub node: Node,
}

/// What an expression is.
#[cycle(expr)]
#[derive(Debug, Drop)]
pub enum Node {
    /// A number, without a sign.
    Number(Dec),
    /// A text in quotes, without them and with its escapes read.
    Str(Text),
    /// A metric's name, or lists in braces, or both: `up`, `{job="a" or job="b"}`, `up{job="a"}`.
    Select {
        /// None where no name is written.
        name: Option<Text>,
        /// None where no braces are written. Empty braces are one empty list.
        lists: List<List<Item>>,
    },
    /// `inner[window] offset offset`, with one of the two at least.
    Ranged {
        inner: Boxed<Expr>,
        window: Option<Span>,
        offset: Option<Span>,
    },
    /// A call of a function, of an aggregate or of a template.
    Call {
        /// The name of what is called.
        name: Text,
        /// The arguments.
        args: List<Expr>,
        /// The group before the arguments, as in `sum by (job) (up)`.
        before: Option<Group>,
        /// The group after them, as in `sum(up) by (job)`.
        after: Option<Group>,
        /// Whether `keep_metric_names` stands after it.
        keep: bool,
    },
    /// `left op right`
    Binary {
        op: Op,
        /// Whether `bool` stands after the operator.
        truth: bool,
        /// How the operator matches the lines of its sides.
        matching: Matching,
        left: Boxed<Expr>,
        right: Boxed<Expr>,
    },
    /// `-inner`
    Negate(Boxed<Expr>),
    /// `WITH (templates) body`
    With {
        templates: List<Template>,
        body: Boxed<Expr>,
    },
}

/// `name = body` or `name(params) = body`. (MetricsQL, "WITH templates")
#[cycle(expr)]
#[derive(Debug, Drop)]
pub struct Template {
    /// The place of its name.
    pub at: u64,
    /// Its name.
    pub name: Text,
    /// None where no parentheses are written.
    pub params: List<Param>,
    /// Its body.
    pub body: Expr,
}

/// A parameter of a template.
#[derive(Debug, Drop)]
pub struct Param {
    /// The place of its name.
    pub at: u64,
    /// Its name.
    pub name: Text,
}

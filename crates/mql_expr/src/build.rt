//! Each kind of expression from its parts.

ghost use Rattle.std.specs.Prelude.{◌≡◌, IfOk};
ghost use Rattle.mql_expr.specs.Tree.{tree, trees_in, templates_in, template, number, string, select, ranged, call, binary, negate, with_templates};

use crate::expr::{Expr, Node, Param, Template};
use crate::item::Item;
use mql_lex::{Group, Matching, Op, Span};
use std::alloc::{AllocError, Global};
use vm_base::{Boxed, List, Text};
use vm_decimal::Dec;

impl Expr {
    /// A number.
    pub fn number(at: u64, value: Dec) -> Expr
        ensures { tree result ≡ number at value }
    {
        Expr {
            at,
            node: Node::Number(value),
        }
    }

    /// A string with this value.
    pub fn string(at: u64, text: Text) -> Expr
        ensures { tree result ≡ string at text }
    {
        Expr {
            at,
            node: Node::Str(text),
        }
    }

    /// A selector: a metric's name, or lists in braces, or both.
    pub fn select(at: u64, name: Option<Text>, lists: List<List<Item>>) -> Expr
        ensures { tree result ≡ select at name lists }
    {
        Expr {
            at,
            node: Node::Select { name, lists },
        }
    }

    /// A minus before an expression.
    pub fn negate(alloc: Global, at: u64, inner: Expr) -> Result<Expr, AllocError>
        ensures { IfOk result (λ e. tree e ≡ negate at (tree inner)) }
    {
        let inner = Boxed::new(alloc, inner)?;
        Ok(Expr {
            at,
            node: Node::Negate(inner),
        })
    }

    /// An expression with a window, an offset or both.
    pub fn ranged(
        alloc: Global,
        at: u64,
        inner: Expr,
        window: Option<Span>,
        offset: Option<Span>,
    ) -> Result<Expr, AllocError>
        ensures { IfOk result (λ e. tree e ≡ ranged at (tree inner) window offset) }
    {
        let inner = Boxed::new(alloc, inner)?;
        Ok(Expr {
            at,
            node: Node::Ranged {
                inner,
                window,
                offset,
            },
        })
    }

    /// A `WITH` with these templates and this body.
    pub fn with(
        alloc: Global,
        at: u64,
        templates: List<Template>,
        body: Expr,
    ) -> Result<Expr, AllocError>
        ensures { IfOk result
            (λ e. tree e ≡ with_templates at (templates_in templates) (tree body)) }
    {
        let body = Boxed::new(alloc, body)?;
        Ok(Expr {
            at,
            node: Node::With { templates, body },
        })
    }

    /// A call with these arguments.
    pub fn call(at: u64, called: Called, args: List<Expr>) -> Expr
        ensures { tree result
            ≡ call at called.name (trees_in args) called.before called.after called.keep }
    {
        let Called {
            name,
            before,
            after,
            keep,
        } = called;
        Expr {
            at,
            node: Node::Call {
                name,
                args,
                before,
                after,
                keep,
            },
        }
    }

    /// An operator with its operands.
    pub fn binary(
        alloc: Global,
        at: u64,
        joint: Joint,
        left: Expr,
        right: Expr,
    ) -> Result<Expr, AllocError>
        ensures { IfOk result
            (λ e. tree e ≡ binary at joint.op joint.truth joint.matching (tree left) (tree right)) }
    {
        let left = Boxed::new(alloc, left)?;
        let right = Boxed::new(alloc, right)?;
        let Joint {
            op,
            truth,
            matching,
        } = joint;
        Ok(Expr {
            at,
            node: Node::Binary {
                op,
                truth,
                matching,
                left,
                right,
            },
        })
    }
}

impl Template {
    /// A template with this name, these parameters and this body.
    pub fn new(at: u64, name: Text, params: List<Param>, body: Expr) -> Template
        ensures { template result
            ≡ record { at = at; name = name; params = params; body = tree body } }
    {
        Template {
            at,
            name,
            params,
            body,
        }
    }
}

/// What stands around the arguments of a call.
#[derive(Debug, Drop)]
pub struct Called {
    /// The name of what is called.
    pub name: Text,
    /// The group before the arguments.
    pub before: Option<Group>,
    /// The group after the arguments.
    pub after: Option<Group>,
    /// Whether `keep_metric_names` stands after the call.
    pub keep: bool,
}

/// What stands between the operands of an operator.
#[derive(Debug, Drop)]
pub struct Joint {
    /// The operator.
    pub op: Op,
    /// Whether `bool` stands after the operator.
    pub truth: bool,
    /// How the operator matches the lines of its sides.
    pub matching: Matching,
}

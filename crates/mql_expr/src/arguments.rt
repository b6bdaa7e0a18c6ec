//! Which arguments functions and aggregates take. (MetricsQL, "MetricsQL functions")

ghost use Rattle.std.specs.Prelude.{◌≡◌};
ghost use Rattle.mql_expr.specs.Arguments.{aggregate_kinds as kinds_of_aggregate, function_kinds as kinds_of_function, function_rest as rest_of_function, first_kinds, rest_of, rest_kind, kind_at as kind_in, may_end as ends, rollup_keeps, function_keeps, keeps_name as keeps};

use crate::names::{Aggregate, Function, Known, Rollup};

/// What an argument is.
#[derive(Clone, Copy, Debug, PartialEq, Eq)]
pub enum Kind {
    /// Any expression but a string.
    Series,
    /// A selector, with a window and an offset or without.
    Selector,
    /// A written whole number below 2^32.
    Count,
    /// A written number above 0.
    Positive,
    /// A string that is a label's name.
    LabelName,
    /// A string.
    Quoted,
    /// An expression of numbers alone, as `2 * time()`.
    Numeric,
}

/// What arguments may stand after the first.
#[derive(Clone, Copy, Debug, PartialEq, Eq)]
pub enum Rest {
    /// No more.
    Nothing,
    /// One or none.
    Perhaps(Kind),
    /// As many as one likes.
    Each(Kind),
    /// As many pairs as one likes.
    Pairs(Kind, Kind),
}

impl Known {
    /// The arguments that a call begins with.
    pub fn first(self) -> &'static [Kind]
        ensures { result.now ≡ first_kinds self }
    {
        match self {
            Known::OfWindow(_) => &[Kind::Selector],
            Known::OfGroup(aggregate) => aggregate_kinds(aggregate),
            Known::OfPoints(function) => function_kinds(function),
        }
    }

    /// The arguments that may stand after these.
    pub fn rest(self) -> Rest
        ensures { result ≡ rest_of self }
    {
        match self {
            Known::OfPoints(function) => function_rest(function),
            _ => Rest::Nothing,
        }
    }

    /// Whether the lines of the result keep the metric's name without `keep_metric_names`. What an
    /// aggregate keeps its groups say.
    pub fn keeps_name(self) -> bool
        ensures { result ≡ keeps self }
    {
        match self {
            Known::OfWindow(rollup) => rollup_keeps_name(rollup),
            Known::OfGroup(_) => false,
            Known::OfPoints(function) => function_keeps_name(function),
        }
    }
}

fn aggregate_kinds(aggregate: Aggregate) -> &'static [Kind]
    ensures { result.now ≡ kinds_of_aggregate aggregate }
{
    match aggregate {
        Aggregate::Topk | Aggregate::Bottomk | Aggregate::Limitk => &[Kind::Count, Kind::Series],
        Aggregate::CountValues => &[Kind::LabelName, Kind::Series],
        _ => &[Kind::Series],
    }
}

fn function_kinds(function: Function) -> &'static [Kind]
    ensures { result.now ≡ kinds_of_function function }
{
    match function {
        Function::Clamp => &[Kind::Series, Kind::Numeric, Kind::Numeric],
        Function::ClampMin | Function::ClampMax => &[Kind::Series, Kind::Numeric],
        Function::Time => &[],
        Function::LabelSet => &[Kind::Series, Kind::LabelName, Kind::Quoted],
        Function::LabelDel | Function::LabelKeep => &[Kind::Series, Kind::LabelName],
        Function::LabelCopy => &[Kind::Series, Kind::LabelName, Kind::LabelName],
        Function::LabelJoin => &[Kind::Series, Kind::LabelName, Kind::Quoted, Kind::LabelName],
        Function::LabelReplace => &[
            Kind::Series,
            Kind::LabelName,
            Kind::Quoted,
            Kind::LabelName,
            Kind::Quoted,
        ],
        _ => &[Kind::Series],
    }
}

fn function_rest(function: Function) -> Rest
    ensures { result ≡ rest_of_function function }
{
    match function {
        Function::Round => Rest::Perhaps(Kind::Positive),
        Function::LabelSet => Rest::Pairs(Kind::LabelName, Kind::Quoted),
        Function::LabelCopy => Rest::Pairs(Kind::LabelName, Kind::LabelName),
        Function::LabelDel | Function::LabelKeep | Function::LabelJoin => {
            Rest::Each(Kind::LabelName)
        }
        Function::Union => Rest::Each(Kind::Series),
        _ => Rest::Nothing,
    }
}

fn rollup_keeps_name(rollup: Rollup) -> bool
    ensures { result ≡ rollup_keeps rollup }
{
    matches!(
        rollup,
        Rollup::DefaultRollup
            | Rollup::LastOverTime
            | Rollup::FirstOverTime
            | Rollup::MinOverTime
            | Rollup::MaxOverTime
            | Rollup::AvgOverTime
    )
}

fn function_keeps_name(function: Function) -> bool
    ensures { result ≡ function_keeps function }
{
    !matches!(
        function,
        Function::Abs | Function::Sgn | Function::Scalar | Function::Time | Function::Absent
    )
}

/// What the argument at an index is, counted from 0. None may stand where there is no kind.
pub(crate) fn kind_at(known: Known, index: usize) -> Option<Kind>
    ensures { result ≡ kind_in (first_kinds known) (rest_of known) index }
{
    let first = known.first();
    if index < first.len() {
        return Some(first[index]);
    }
    kind_behind(known.rest(), index - first.len())
}

fn kind_behind(rest: Rest, index: usize) -> Option<Kind>
    ensures { result ≡ rest_kind rest index }
{
    match rest {
        Rest::Nothing => None,
        Rest::Perhaps(kind) if index == 0 => Some(kind),
        Rest::Perhaps(_) => None,
        Rest::Each(kind) => Some(kind),
        Rest::Pairs(one, _) if index % 2 == 0 => Some(one),
        Rest::Pairs(_, other) => Some(other),
    }
}

/// Whether a call may have so many arguments and no more.
pub(crate) fn may_end(known: Known, count: usize) -> bool
    ensures { result ≡ ends (first_kinds known) (rest_of known) count }
{
    let first = known.first().len();
    count >= first && !(matches!(known.rest(), Rest::Pairs(_, _)) && (count - first) % 2 == 1)
}

//! The names of functions and aggregates. (MetricsQL, "MetricsQL functions")

ghost use Rattle.std.specs.Prelude.{◌≡◌};
ghost use Rattle.std.specs.Str.{str_eq_ignore_ascii_case};
ghost use Rattle.mql_expr.specs.Names.{rollup_name as rollup_text, aggregate_name as aggregate_text, function_name as function_text, name_of, known_as, has_name, first_named};

/// A function over the samples in a window. (MetricsQL, "Rollup functions")
#[derive(Clone, Copy, Debug, PartialEq, Eq)]
pub enum Rollup {
    /// `default_rollup`
    DefaultRollup,
    /// `last_over_time`
    LastOverTime,
    /// `first_over_time`
    FirstOverTime,
    /// `min_over_time`
    MinOverTime,
    /// `max_over_time`
    MaxOverTime,
    /// `avg_over_time`
    AvgOverTime,
    /// `sum_over_time`
    SumOverTime,
    /// `count_over_time`
    CountOverTime,
    /// `distinct_over_time`
    DistinctOverTime,
    /// `present_over_time`
    PresentOverTime,
    /// `range_over_time`
    RangeOverTime,
    /// `changes`
    Changes,
    /// `resets`
    Resets,
    /// `delta`
    Delta,
    /// `increase`
    Increase,
    /// `rate`
    Rate,
    /// `deriv_fast`
    DerivFast,
    /// `idelta`
    Idelta,
    /// `ideriv`
    Ideriv,
    /// `irate`
    Irate,
    /// `lag`
    Lag,
    /// `lifetime`
    Lifetime,
    /// `tfirst_over_time`
    TfirstOverTime,
    /// `tlast_over_time`
    TlastOverTime,
    /// `tmin_over_time`
    TminOverTime,
    /// `tmax_over_time`
    TmaxOverTime,
}

/// A function over the lines of a group. (MetricsQL, "Aggregate functions")
#[derive(Clone, Copy, Debug, PartialEq, Eq)]
pub enum Aggregate {
    /// `sum`
    Sum,
    /// `min`
    Min,
    /// `max`
    Max,
    /// `count`
    Count,
    /// `avg`
    Avg,
    /// `group`
    Group,
    /// `any`
    Any,
    /// `topk`
    Topk,
    /// `bottomk`
    Bottomk,
    /// `limitk`
    Limitk,
    /// `count_values`
    CountValues,
}

/// A function over points, or over labels. (MetricsQL, "Transform functions" and
/// "Label manipulation functions")
#[derive(Clone, Copy, Debug, PartialEq, Eq)]
pub enum Function {
    /// `abs`
    Abs,
    /// `sgn`
    Sgn,
    /// `ceil`
    Ceil,
    /// `floor`
    Floor,
    /// `round`
    Round,
    /// `clamp`
    Clamp,
    /// `clamp_min`
    ClampMin,
    /// `clamp_max`
    ClampMax,
    /// `scalar`
    Scalar,
    /// `vector`
    Vector,
    /// `time`
    Time,
    /// `absent`
    Absent,
    /// `label_set`
    LabelSet,
    /// `label_del`
    LabelDel,
    /// `label_keep`
    LabelKeep,
    /// `label_copy`
    LabelCopy,
    /// `label_join`
    LabelJoin,
    /// `label_replace`
    LabelReplace,
    /// `union`
    Union,
    /// `sort`
    Sort,
    /// `sort_desc`
    SortDesc,
}

/// What a call may be of.
#[derive(Clone, Copy, Debug, PartialEq, Eq)]
pub enum Known {
    /// A function over the samples in a window.
    OfWindow(Rollup),
    /// An aggregate.
    OfGroup(Aggregate),
    /// A function over points, or over labels.
    OfPoints(Function),
}

/// All names that there are.
static KNOWN: [Known; 58] = [
    Known::OfWindow(Rollup::DefaultRollup),
    Known::OfWindow(Rollup::LastOverTime),
    Known::OfWindow(Rollup::FirstOverTime),
    Known::OfWindow(Rollup::MinOverTime),
    Known::OfWindow(Rollup::MaxOverTime),
    Known::OfWindow(Rollup::AvgOverTime),
    Known::OfWindow(Rollup::SumOverTime),
    Known::OfWindow(Rollup::CountOverTime),
    Known::OfWindow(Rollup::DistinctOverTime),
    Known::OfWindow(Rollup::PresentOverTime),
    Known::OfWindow(Rollup::RangeOverTime),
    Known::OfWindow(Rollup::Changes),
    Known::OfWindow(Rollup::Resets),
    Known::OfWindow(Rollup::Delta),
    Known::OfWindow(Rollup::Increase),
    Known::OfWindow(Rollup::Rate),
    Known::OfWindow(Rollup::DerivFast),
    Known::OfWindow(Rollup::Idelta),
    Known::OfWindow(Rollup::Ideriv),
    Known::OfWindow(Rollup::Irate),
    Known::OfWindow(Rollup::Lag),
    Known::OfWindow(Rollup::Lifetime),
    Known::OfWindow(Rollup::TfirstOverTime),
    Known::OfWindow(Rollup::TlastOverTime),
    Known::OfWindow(Rollup::TminOverTime),
    Known::OfWindow(Rollup::TmaxOverTime),
    Known::OfGroup(Aggregate::Sum),
    Known::OfGroup(Aggregate::Min),
    Known::OfGroup(Aggregate::Max),
    Known::OfGroup(Aggregate::Count),
    Known::OfGroup(Aggregate::Avg),
    Known::OfGroup(Aggregate::Group),
    Known::OfGroup(Aggregate::Any),
    Known::OfGroup(Aggregate::Topk),
    Known::OfGroup(Aggregate::Bottomk),
    Known::OfGroup(Aggregate::Limitk),
    Known::OfGroup(Aggregate::CountValues),
    Known::OfPoints(Function::Abs),
    Known::OfPoints(Function::Sgn),
    Known::OfPoints(Function::Ceil),
    Known::OfPoints(Function::Floor),
    Known::OfPoints(Function::Round),
    Known::OfPoints(Function::Clamp),
    Known::OfPoints(Function::ClampMin),
    Known::OfPoints(Function::ClampMax),
    Known::OfPoints(Function::Scalar),
    Known::OfPoints(Function::Vector),
    Known::OfPoints(Function::Time),
    Known::OfPoints(Function::Absent),
    Known::OfPoints(Function::LabelSet),
    Known::OfPoints(Function::LabelDel),
    Known::OfPoints(Function::LabelKeep),
    Known::OfPoints(Function::LabelCopy),
    Known::OfPoints(Function::LabelJoin),
    Known::OfPoints(Function::LabelReplace),
    Known::OfPoints(Function::Union),
    Known::OfPoints(Function::Sort),
    Known::OfPoints(Function::SortDesc),
];

impl Known {
    /// The function or the aggregate of a name, which is read without regard to ASCII case.
    #[tactic(auto, unfolding(crate::specs::Names::known_as))]
    pub fn of(name: &str) -> Option<Known>
        ensures { result ≡ known_as name.now }
    {
        named_among(&KNOWN, name)
    }

    /// The name in lower case.
    pub fn name(self) -> &'static str
        ensures { result.now ≡ name_of self }
    {
        match self {
            Known::OfWindow(rollup) => rollup_name(rollup),
            Known::OfGroup(aggregate) => aggregate_name(aggregate),
            Known::OfPoints(function) => function_name(function),
        }
    }
}

/// The first of these that has the name, without regard to ASCII case.
fn named_among(all: &[Known], name: &str) -> Option<Known>
    ensures { result ≡ first_named all.now name.now }
{
    for known in all {
        if is_named(*known, name) {
            return Some(*known);
        }
    }
    None
}

fn is_named(known: Known, name: &str) -> bool
    ensures { result ≡ has_name known name.now }
{
    is_same(known.name(), name)
}

/// Whether two texts are the same but for the case of ASCII letters.
fn is_same(one: &str, other: &str) -> bool
    ensures { result ≡ str_eq_ignore_ascii_case one.now other.now }
{
    one.eq_ignore_ascii_case(other)
}

fn rollup_name(rollup: Rollup) -> &'static str
    ensures { result.now ≡ rollup_text rollup }
{
    match rollup {
        Rollup::DefaultRollup => "default_rollup",
        Rollup::LastOverTime => "last_over_time",
        Rollup::FirstOverTime => "first_over_time",
        Rollup::MinOverTime => "min_over_time",
        Rollup::MaxOverTime => "max_over_time",
        Rollup::AvgOverTime => "avg_over_time",
        Rollup::SumOverTime => "sum_over_time",
        Rollup::CountOverTime => "count_over_time",
        Rollup::DistinctOverTime => "distinct_over_time",
        Rollup::PresentOverTime => "present_over_time",
        Rollup::RangeOverTime => "range_over_time",
        Rollup::Changes => "changes",
        Rollup::Resets => "resets",
        Rollup::Delta => "delta",
        Rollup::Increase => "increase",
        Rollup::Rate => "rate",
        Rollup::DerivFast => "deriv_fast",
        Rollup::Idelta => "idelta",
        Rollup::Ideriv => "ideriv",
        Rollup::Irate => "irate",
        Rollup::Lag => "lag",
        Rollup::Lifetime => "lifetime",
        Rollup::TfirstOverTime => "tfirst_over_time",
        Rollup::TlastOverTime => "tlast_over_time",
        Rollup::TminOverTime => "tmin_over_time",
        Rollup::TmaxOverTime => "tmax_over_time",
    }
}

fn aggregate_name(aggregate: Aggregate) -> &'static str
    ensures { result.now ≡ aggregate_text aggregate }
{
    match aggregate {
        Aggregate::Sum => "sum",
        Aggregate::Min => "min",
        Aggregate::Max => "max",
        Aggregate::Count => "count",
        Aggregate::Avg => "avg",
        Aggregate::Group => "group",
        Aggregate::Any => "any",
        Aggregate::Topk => "topk",
        Aggregate::Bottomk => "bottomk",
        Aggregate::Limitk => "limitk",
        Aggregate::CountValues => "count_values",
    }
}

fn function_name(function: Function) -> &'static str
    ensures { result.now ≡ function_text function }
{
    match function {
        Function::Abs => "abs",
        Function::Sgn => "sgn",
        Function::Ceil => "ceil",
        Function::Floor => "floor",
        Function::Round => "round",
        Function::Clamp => "clamp",
        Function::ClampMin => "clamp_min",
        Function::ClampMax => "clamp_max",
        Function::Scalar => "scalar",
        Function::Vector => "vector",
        Function::Time => "time",
        Function::Absent => "absent",
        Function::LabelSet => "label_set",
        Function::LabelDel => "label_del",
        Function::LabelKeep => "label_keep",
        Function::LabelCopy => "label_copy",
        Function::LabelJoin => "label_join",
        Function::LabelReplace => "label_replace",
        Function::Union => "union",
        Function::Sort => "sort",
        Function::SortDesc => "sort_desc",
    }
}

ghost use Rattle.std.specs.Prelude.{◌≡◌};
ghost use Rattle.vm_base.specs.Stamped.{is_in_order};

use crate::Sample;

/// A sample at its time. Samples are in order by time, and at one time by value.
///
/// A caller's proof gets `is_in_order a b` from `a <= b`, and `sorted is_in_order` of a list from
/// `sort` by the law `sorted_from_stamped_sort`.
#[derive(Clone, Copy, Debug, PartialEq, Eq, PartialOrd, Ord)]
pub struct Stamped {
    /// Milliseconds since the Unix epoch.
    pub time: u64,
    /// The value at that time.
    pub value: Sample,
}

impl Stamped {
    /// Whether the other one may follow this one in order: it comes later, or at the same time with
    /// a value that is as great or greater.
    pub fn is_in_order(self, other: Stamped) -> bool
        ensures { result ≡ is_in_order self other }
    {
        self <= other
    }
}

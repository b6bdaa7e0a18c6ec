//! Which samples a query sees, and which of two is the later one.

ghost use Rattle.std.specs.Prelude.{◌≡◌, Some};
ghost use Rattle.vm_base.specs.Sorted.{later};
ghost use Rattle.vm_base.specs.Stamped.{is_in_order};
ghost use Rattle.vm_machine.specs.Window.{is_within};

use vm_base::Stamped;

/// Whether a sample lies in the window of `length` ms that ends at `at`, a time in ms:
/// `at - length < time <= at`.
pub fn is_within(at: u64, length: u64, sample: &Stamped) -> bool
    ensures { result ≡ is_within at length sample.now }
{
    sample.time <= at && at - sample.time < length
}

/// The later one of two samples, in the order of samples.
pub fn later(first: Stamped, second: Stamped) -> Stamped
    ensures { Some result ≡ later is_in_order (Some first) (Some second) }
{
    if first <= second { second } else { first }
}

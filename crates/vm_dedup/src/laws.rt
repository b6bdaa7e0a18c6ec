//! What `thinned` gives, said without walking the list.
ghost use Rattle.std.specs.Prelude.{◌≡◌};
ghost use Rattle.vm_base.specs.Sorted.{IsUp};
ghost use Rattle.vm_base.specs.Stamped.{is_in_order};
ghost use Rattle.vm_base.specs.Thinned.{thinned};
ghost use Rattle.vm_dedup.specs.Intervals.{last_of_intervals};

use vm_base::Stamped;

/// Does nothing. Its contract is a law: of samples in order, those stay of which no later one falls
/// into the same interval, and with an interval of 0 ms all stay.
pub fn last_of_each_interval(interval: u64, samples: &[Stamped])
    requires { IsUp is_in_order samples.now }
    ensures last { thinned interval samples.now ≡ last_of_intervals interval samples.now }
    ensures all { thinned 0 samples.now ≡ samples.now }
{}

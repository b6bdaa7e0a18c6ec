ghost use Rattle.std.specs.Prelude.{◌≡◌, ◌<◌, ◌==◌, ◌&&◌, nat_lt, List, [], ◌∷◌, ◌++◌};
ghost use Rattle.std.specs.Option.{option_to_list};
ghost use Rattle.vm_base.specs.Thinned.{thinned, interval_of};
ghost use Rattle.vm_base.specs.declared.stamped.Stamped.{Stamped};

use std::marker::Model;
use vm_base::Stamped;

/// Samples on their way through deduplication. Contracts see its interval and the sample that it
/// still holds, where there is one.
///
/// Put each sample in by `push`, in order, and then call `end`: what comes out is `thinned` of what
/// went in. It takes no memory.
#[derive(Debug, Drop)]
pub struct Dedup {
    /// The length of an interval in ms.
    interval: u64,
    /// The last sample that was put in.
    last: Option<Stamped>,
}

impl Model for Dedup {
    ghost use Rattle.std.specs.Option.{option_to_list};
    ghost use Rattle.vm_dedup.specs.Dedup.{Thinning};

    ghost Value = { Thinning };

    ghost view = { λ d. record { interval = d.interval; held = option_to_list d.last } };
}

impl Dedup {
    /// Begins with no sample. `interval` is the length of an interval in ms. At 0 no two samples
    /// share an interval, so all come out.
    pub fn new(interval: u64) -> Dedup
        ensures { result ≡ record { interval = interval; held = [] } }
    {
        Dedup {
            interval,
            last: None,
        }
    }

    /// Puts the next sample in, and gives the one before it where that one stays. So what came out,
    /// put before what comes out of the held sample and of any that follow, is the same before the
    /// call and after it.
    pub fn push(&mut self, sample: Stamped) -> Option<Stamped>
        ensures thinned { (more : List Stamped)
            → thinned self.old.interval (self.old.held ++ sample ∷ more)
            ≡ option_to_list result ++ thinned self.old.interval (self.new.held ++ more) }
        ensures interval { self.new.interval ≡ self.old.interval }
    {
        let next = sample.time;
        let last = self.last.replace(sample)?;
        let time = last.time;
        if is_one_interval(self.interval, time, next) {
            return None;
        }
        Some(last)
    }

    /// Gives the held sample. None is held afterwards, so that another list may follow.
    pub fn end(&mut self) -> Option<Stamped>
        ensures thinned { option_to_list result ≡ thinned self.old.interval self.old.held }
        ensures after { self.new ≡ record { interval = self.old.interval; held = [] } }
    {
        self.last.take()
    }
}

/// Whether two times fall into one interval; at an interval of 0 ms no two do.
#[tactic(auto, using(crate::proofs::Intervals::interval_rounds_up))]
fn is_one_interval(interval: u64, earlier: u64, later: u64) -> bool
    ensures { result
        ≡ (nat_lt 0 interval && interval_of interval earlier == interval_of interval later) }
{
    interval > 0 && earlier.div_ceil(interval) == later.div_ceil(interval)
}

//! Deduplication: of the samples of one interval the last one stays.
//!
//! Samples come one by one and in order, and those that stay come out in that order. An interval of
//! d ms ends at each multiple of d, as VictoriaMetrics has it for `-dedup.minScrapeInterval`.
//!
//! Begin with `Dedup`. `thinned` of `vm_base` is what a list becomes, and `last_of_each_interval`
//! says the same without walking the list: `specs/Intervals.antt` has its words.
//!
//! `specs/Visible.antt` says what is seen of a series among rows: no function here cites it, but
//! all who answer from rows or gather them do.
//!
//! It stands on `vm_base` for `Stamped` and for `thinned`, and on `vm_labels` for rows.
#![tactic(auto)]

mod dedup;
mod laws;

pub use dedup::Dedup;
pub use laws::last_of_each_interval;

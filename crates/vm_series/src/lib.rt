//! Rows or pieces of series, gathered by their label sets into the series of a part.
//!
//! A part holds each label set once, in label order, with its samples in order and deduplicated.
//! What is to be written comes otherwise: rows in the order of an import, or pieces of one series
//! from several parts. `gather` makes series of pieces in one pass over them, once they stand in
//! label order.
//!
//! Begin with `gather`. `series_of` of `specs/Series.antt` says which series rows have. What a
//! reader of them may expect say two laws, `each_series_is_in_order` and
//! `series_have_what_is_seen`, and `proofs/SeriesLaws.antt` says it for other crates' proofs.
//!
//! It stands on `vm_base` for samples and lists, on `vm_labels` for label sets and rows, on
//! `vm_dedup` for deduplication and on `vm_index` for the order of a part's label sets.
#![tactic(auto)]

mod groups;
mod laws;
mod series;

pub use groups::gather;
pub use laws::{each_series_is_in_order, series_have_what_is_seen};
pub use series::{Piece, Series};

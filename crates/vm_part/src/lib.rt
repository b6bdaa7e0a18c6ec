//! Part files: series with their samples, as sorted immutable bytes.
//!
//! A part holds series in label order, each with its blocks in order of time. Its file has the
//! blocks, an entry for each series, the label index and a footer that says where these stand.
//!
//! Begin with `MemPart`, a part in memory: `of_batch` and `of_parts` make one, and `read` takes one
//! from bytes. `PartWriter` brings it into a file, step by step, and `open_part` gives the
//! `PartReader` of one that stands in a file. `specs/Part.antt` says which bytes are the part of
//! which series, `specs/Broken.antt` where bytes that are none break, `specs/Said.antt` what a part
//! in memory keeps and is made of, and `specs/Files.antt` how it comes into a file.
//!
//! It stands on `vm_series` for the series of rows, on `vm_block` for blocks, on `vm_index` for the
//! label index, and on `vm_outside` for files.
#![tactic(auto)]

mod blocks;
mod build;
mod entries;
mod entry;
mod fault;
mod fields;
mod footer;
mod laws;
mod limits;
mod merging;
mod numbers;
mod opening;
mod part;
mod reader;
mod reading;
mod series;
mod writer;

pub use entry::Entry;
pub use fault::{PartFault, PartTooLong, ReadFault};
pub use laws::{a_part_breaks_nowhere, a_part_says_one_list, bytes_break_at_one_place};
pub use limits::are_within_limits;
pub use opening::open_part;
pub use part::MemPart;
pub use reader::PartReader;
pub use writer::{PartWriter, Writing};

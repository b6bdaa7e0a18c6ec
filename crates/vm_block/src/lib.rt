//! Blocks: up to 8,192 samples of one series as bytes, under one exponent of ten.
//!
//! A block is a header of 40 bytes and a body of two columns, the times and the mantissas of its
//! samples. Each sample's value is its mantissa times ten to the block's exponent, the least
//! exponent among its values, so that no digit is lost.
//!
//! Read `BlockHeader` first, then `cut`, `encode_block`, `read_header` and `decode_block`.
//! `specs/Header.antt` says which bytes are a header, `specs/Block.antt` which bytes are the block
//! of which samples and where bytes that are none break, and `specs/Cut.antt` where blocks end.
//!
//! It stands on `vm_base` for samples and on `vm_codec` for columns.
#![tactic(auto)]

mod cutting;
mod decode;
mod encode;
mod fault;
mod header;
mod laws;
mod samples;
mod shared;

pub use cutting::cut;
pub use decode::decode_block;
pub use encode::encode_block;
pub use fault::BlockFault;
pub use header::{BlockHeader, HEADER_LEN, read_header, write_header};
pub use laws::{
    a_block_breaks_at_one_place, a_block_says_one_list, samples_are_written_in_one_way,
    samples_have_one_cut, what_is_written_is_read,
};
pub use samples::are_one_block;

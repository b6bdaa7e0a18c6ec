//! Laws of the crates of storage. Each call asks for nothing but what its law is about, and does
//! nothing.

use crate::block::{BLOCK, header_of};
use std::test::Fail;
use test_rows::bytes_of;

#[test]
fn laws_ask_for_nothing(rt: HostRuntime) -> Result<(), Fail> {
    vm_dedup::last_of_each_interval(5, &[]);
    vm_codec::no_column_begins_another(vm_codec::Coding::Const, 0, 1);
    vm_codec::bytes_break_at_one_place(vm_codec::Coding::Const, 0, 1);
    vm_index::a_table_says_one_list();
    vm_index::a_table_breaks_at_one_place();
    vm_series::each_series_is_in_order(5, &[]);
    vm_series::series_have_what_is_seen(5, &[]);
    vm_part::a_part_says_one_list();
    vm_part::a_part_breaks_nowhere();
    vm_part::bytes_break_at_one_place();
    Ok(())
}

#[test]
fn laws_of_blocks_ask_for_nothing(rt: HostRuntime) -> Result<(), Fail> {
    vm_block::samples_have_one_cut(&[]);
    vm_block::samples_are_written_in_one_way();
    vm_block::a_block_breaks_at_one_place();
    let block = bytes_of(rt.alloc(), BLOCK)?;
    let Ok(header) = header_of(&block) else {
        panic!(rt; "the header breaks");
    };
    vm_block::a_block_says_one_list(&header, block.get(40..).ok_or("no body")?);
    vm_block::what_is_written_is_read(&header);
    Ok(())
}

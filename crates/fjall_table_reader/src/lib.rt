//! A table in a file of a disk: opened from its end, its blocks kept in memory as they are read, and look-ups in them.
#![tactic(auto)]

mod block;
mod file_laws;
mod found;
mod place;
mod reader_laws;
mod reading;
mod table_file;
mod table_reader;

pub use block::Block;
pub use file_laws::{files_have_an_index, one_index_of_a_file, one_list_of_a_file};
pub use found::Found;
pub use reader_laws::{
    a_right_table_is_one_but_for_no_block, a_wrong_block_for_a_key_is_a_wrong_block,
};
pub use table_file::TableFile;
pub use table_reader::TableReader;

//! One sorted table as bytes and back: data blocks, their index, the footer, and which blocks may hold a key.
#![tactic(auto)]

mod block;
mod check;
mod closed_blocks;
mod footer;
mod frame;
mod front;
mod index;
mod keys;
mod laws;
mod level;
mod open_block;
mod owned_handle;
mod owned_index;
mod sought;
mod span;
mod table;
mod table_entry;
mod table_info;
mod table_writer;

pub use block::{BLOCK_BYTES, read_block};
pub use check::put_check;
pub use footer::{FOOTER_LEN, Footer};
pub use frame::{frame_of, put_frame};
pub use front::{compare_numbers, front_of};
pub use index::{BlockHandle, Index};
pub use laws::{
    blocks_stand_apart, one_list_of_entries, one_text_of_entries, tables_have_an_index,
};
pub use level::Level;
pub use owned_handle::OwnedHandle;
pub use owned_index::OwnedIndex;
pub use span::span_of;
pub use table::Table;
pub use table_entry::TableEntry;
pub use table_info::TableInfo;
pub use table_writer::TableWriter;

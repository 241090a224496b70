//! Targets of messages: after their length, as TCP sends them, and with names that point to suffixes written earlier
//! (RFC 1035 4.1.4, 4.2.2).
//!
//! A part of `dns_message`, which re-exports all of it.
#![tactic(auto)]

mod append;
mod compressor;
mod hash_table;
mod lower_case;
mod spot;
mod static_table;
mod stream_target;
mod suffix_hash;
mod suffix_list;
mod suffix_map;
mod table;
mod tree_table;
mod walk;
mod written;

pub use compressor::{Compressor, HashCompressor, StaticCompressor, TreeCompressor};
pub use hash_table::HashTable;
pub use static_table::StaticTable;
pub use stream_target::StreamTarget;
pub use table::Table;
pub use tree_table::TreeTable;

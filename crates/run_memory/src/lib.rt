// What a descent and a guided run share as calls: the memory that they work in, and the layout buffer as they begin.
#![tactic(auto)]

pub mod memory;

pub use layout_entries::write_entries;

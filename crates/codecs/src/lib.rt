// Packed entries: what it means to be one, the packed forms of the three kinds, the packed list, and a program read from one.
#![tactic(auto)]

mod codec;
pub mod packed_entry;
pub mod packed_list;
pub mod program;

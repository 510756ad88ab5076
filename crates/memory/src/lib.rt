// Shared memory: what it means, and the two forms in which a host hands one in.
#![tactic(auto)]

pub mod bytes;
pub mod shared;
pub mod words;

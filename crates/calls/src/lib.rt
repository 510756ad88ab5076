// Calls, replies and settings as bytes, and a packed list of calls played on a new engine over byte slices, for callers
// in Rust and C.
#![tactic(auto)]

pub mod call;
pub mod export;
mod kind;
pub mod play;
pub mod reply;
pub mod settings;

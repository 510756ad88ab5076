// One core: its write buffer, the record, what the cores share, and the state machine of a step.
#![tactic(auto)]

mod buffer;
mod instructions;
pub mod record;
pub mod shared;
pub mod state_machine;

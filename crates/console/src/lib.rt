// The console: a line of a scenario as a command, and what the line comes to.
#![tactic(auto)]

mod buffer_command;
pub mod buffers;
pub mod command;
pub mod console;
mod entries;
pub mod kind;
pub mod line;
mod moves;
pub mod packed_answers;
pub mod packed_command;
mod packed_form;
pub mod reason;
pub mod replies;
mod words;

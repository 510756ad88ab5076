// The engine: several cores on one memory, with one commit token, one record and one outlet; with the host's pass beside it; and a
// list of calls played on it.
#![tactic(auto)]

mod core_table;
pub mod engine;
pub mod pass;
pub mod play;
pub mod settings;

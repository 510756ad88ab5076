// Reading and writing the console's text: lines, tokens, numbers and bytes; digits, refusals, instructions, entries,
// answers and states.
#![tactic(auto)]

pub mod bytes;
mod class;
pub mod hexadecimal;
pub mod line;
pub mod machine;
pub mod number;
pub mod refused;
pub mod show;

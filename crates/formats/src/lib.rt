// Answers and refusals, instructions, record entries and outlet entries, with the definitions of their packed forms. No value of
// these types has a field out of range.
#![tactic(auto)]

pub mod answer;
pub mod below;
pub mod bounds;
pub mod entry;
pub mod instruction;
mod mark;
pub mod refusal;
pub mod register;
mod sent;

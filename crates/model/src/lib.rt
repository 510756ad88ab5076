// The types that the definitions of the machine share with the engine's code: what instructions ask for, contexts, lines, states,
// the token, calls, replies, refusals.
#![tactic(auto)]

pub mod action;
pub mod call;
pub mod context;
pub mod effect;
pub mod line;
pub mod refusal;
pub mod state;

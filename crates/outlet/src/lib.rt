// The outlet, where words sent by the cores wait for the host: what it means, and its two forms.
#![tactic(auto)]

pub mod bytes;
mod ring;
mod slot;
pub mod store;
pub mod waiting;

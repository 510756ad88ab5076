// Tests at the edges, of what no clause says, and across crates.
#![tactic(auto)]

#[cfg(test)]
mod command_lines;
#[cfg(test)]
mod lists;
#[cfg(test)]
mod memories;
#[cfg(test)]
mod one_core;
#[cfg(test)]
mod outlets;
#[cfg(test)]
mod packing;
#[cfg(test)]
mod played_bytes;
#[cfg(test)]
mod programs;
#[cfg(test)]
mod refusals;
#[cfg(test)]
mod reply_lines;
#[cfg(test)]
mod texts;

// The calls that change an engine or read its memory, as a list of them is played, and what each answers.
use crate::refusal::{ClearRefusal, GiveBackRefusal, HoldRefusal, ReadRefusal, StepRefusal};
use formats::answer::Answer;
use formats::entry::SentEntry;
use formats::refusal::NothingWaits;

/// A call of the engine.
#[derive(Clone, Copy, PartialEq, Eq, Debug)]
pub enum Call {
    // move one core
    Step(usize),
    // move the core whose turn it is
    Turn,
    // empty the record
    Clear,
    // take the token for the host
    Hold,
    // show the word at an address to the host that has the token
    Read(usize),
    // end the host's hold
    GiveBack,
    // take the oldest entry out of the outlet
    Take,
}

/// What a call answers.
#[derive(Clone, Copy, PartialEq, Eq, Debug)]
pub enum Reply {
    Stepped(Result<Answer, StepRefusal>),
    Cleared(Result<(), ClearRefusal>),
    Held(Result<(), HoldRefusal>),
    Word(Result<u32, ReadRefusal>),
    GivenBack(Result<(), GiveBackRefusal>),
    Taken(Result<SentEntry, NothingWaits>),
}

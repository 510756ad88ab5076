// What a step does that others can see.
use formats::entry::SentEntry;

/// Nothing, one word written, or one entry sent. One enum, and no Option of another: every match asks for the three alike.
#[derive(Clone, Copy, PartialEq, Eq, Debug)]
pub enum Effect {
    Nothing,
    Wrote { address: usize, word: u32 },
    Sent(SentEntry),
}

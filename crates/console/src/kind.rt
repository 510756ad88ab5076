// The kinds of packed entries.
ghost use Rattle.std.specs.Prelude.{◌≡◌};
ghost use Rattle.console.specs.Parsing.{kind_of};

use crate::words::as_name;

/// A kind of packed entries.
#[derive(Clone, Copy, PartialEq, Eq, Debug)]
pub enum Kind {
    Instruction,
    Entry,
    Sent,
}

impl Kind {
    // The kind that a word names.
    pub(crate) fn named(word: &[u8]) -> Option<Kind>
        ensures { result ≡ kind_of word.now }
    {
        match as_name(word) {
            Some("instruction") => Some(Kind::Instruction),
            Some("entry") => Some(Kind::Entry),
            Some("sent") => Some(Kind::Sent),
            _ => None,
        }
    }
}

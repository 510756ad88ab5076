// Why a line is not understood.
ghost use Rattle.std.specs.Prelude.{◌≡◌, Some};
ghost use Rattle.console.specs.Reasons.{reason_text, number_reason};
ghost use Rattle.console.specs.declared.reason.ParseError.TheVariants.{NotUnderstood, NoMemory};

use std::alloc::{AllocError, AllocFailed};
use std::fmt;
use text::number::NumberFault;

/// Why a line is not understood.
#[derive(Clone, Copy, PartialEq, Eq, Debug)]
pub enum Reason {
    UnknownCommand,
    MissingWord,
    NoNumber,
    NumberTooLarge,
    NoBytes,
    NotFiveBytes,
    UnknownKind,
    ExtraWord,
    NoProgram,
    NoEngine,
}

impl Reason {
    /// The words after `-> not understood: `.
    pub fn text(self) -> &'static str
        ensures { result.now ≡ reason_text self }
    {
        match self {
            Reason::UnknownCommand => "unknown command",
            Reason::MissingWord => "missing word",
            Reason::NoNumber => "no number",
            Reason::NumberTooLarge => "number too large",
            Reason::NoBytes => "no bytes",
            Reason::NotFiveBytes => "not five bytes",
            Reason::UnknownKind => "unknown kind",
            Reason::ExtraWord => "extra word",
            Reason::NoProgram => "no program",
            Reason::NoEngine => "no engine",
        }
    }
}

// Its words.
impl fmt::Display for Reason {
    ghost output = { λ r. Some (reason_text r) };

    fn fmt<W: fmt::Write>(&self, f: &mut fmt::Formatter<W>) -> fmt::Result {
        f.write_str(self.text())
    }
}

impl From<NumberFault> for Reason {
    ghost from_gives = { λ f r. r ≡ number_reason f };

    fn from(fault: NumberFault) -> Reason {
        match fault {
            NumberFault::NoNumber => Reason::NoNumber,
            NumberFault::TooLarge => Reason::NumberTooLarge,
        }
    }
}

/// Why a line gives no command.
#[derive(Clone, Copy, PartialEq, Eq, Debug)]
pub enum ParseError {
    NotUnderstood(Reason),
    NoMemory,
}

impl From<Reason> for ParseError {
    ghost from_gives = { λ reason r. r ≡ NotUnderstood reason };

    fn from(reason: Reason) -> ParseError {
        ParseError::NotUnderstood(reason)
    }
}

impl From<AllocError> for ParseError {
    ghost from_gives = { λ _ r. r ≡ NoMemory };

    fn from(_error: AllocError) -> ParseError {
        ParseError::NoMemory
    }
}

impl<T: Drop> From<AllocFailed<T>> for ParseError {
    ghost from_gives = { λ _ r. r ≡ NoMemory };

    fn from(_refused: AllocFailed<T>) -> ParseError {
        ParseError::NoMemory
    }
}

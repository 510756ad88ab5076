// Why a call of the engine was refused: each case is a question that was answered with no, with its number.
// One enum for each call, also where two ask the same question, so that a call's type says what it can be refused for.
ghost use Rattle.model.specs.Refusals.{check_number, step_number, clear_number, hold_number, read_number, give_back_number};
ghost use Rattle.model.specs.Refusals.{record_number, tags_number};

use formats::refusal::Refusal;

/// Settings that are not accepted.
#[derive(Clone, Copy, PartialEq, Eq, Debug)]
pub enum CheckRefusal {
    // the entry places are none, or more than 8
    CoreCount = 6,
    // the lines of a core are none, or more than 32
    LineCount = 7,
    // the memory has no word, or more than 4,096
    MemoryLength = 8,
    // an entry place is not below the instruction count
    EntryOutside = 9,
}

/// A step or a turn that is not taken.
#[derive(Clone, Copy, PartialEq, Eq, Debug)]
pub enum StepRefusal {
    // there is no such core
    NoSuchCore = 10,
    // the record has no free entry, or only one while another core has the token
    RecordFull = 11,
}

/// The record is not cleared.
#[derive(Clone, Copy, PartialEq, Eq, Debug)]
pub enum ClearRefusal {
    // the token is not free
    TokenTaken = 12,
}

/// The token is not given to the host.
#[derive(Clone, Copy, PartialEq, Eq, Debug)]
pub enum HoldRefusal {
    // the token is not free
    TokenTaken = 12,
}

/// The host's read is not answered.
#[derive(Clone, Copy, PartialEq, Eq, Debug)]
pub enum ReadRefusal {
    // the host does not have the token
    NotHeld = 13,
    // the address is not below the memory's length
    AddressOutside = 14,
}

/// The token is not given back.
#[derive(Clone, Copy, PartialEq, Eq, Debug)]
pub enum GiveBackRefusal {
    // the host does not have the token
    NotHeld = 13,
}

/// The record has no entry there.
#[derive(Clone, Copy, PartialEq, Eq, Debug)]
pub enum RecordRefusal {
    // the place is not filled
    NotFilled = 16,
}

/// A core's tags are not copied.
#[derive(Clone, Copy, PartialEq, Eq, Debug)]
pub enum TagsRefusal {
    // there is no such core
    NoSuchCore = 10,
    // the list has too few places
    TooShort = 17,
}

impl Refusal for CheckRefusal {
    ghost number = { check_number };

    fn number(&self) -> u8 {
        *self as u8
    }
}

impl Refusal for StepRefusal {
    ghost number = { step_number };

    fn number(&self) -> u8 {
        *self as u8
    }
}

impl Refusal for ClearRefusal {
    ghost number = { clear_number };

    fn number(&self) -> u8 {
        *self as u8
    }
}

impl Refusal for HoldRefusal {
    ghost number = { hold_number };

    fn number(&self) -> u8 {
        *self as u8
    }
}

impl Refusal for ReadRefusal {
    ghost number = { read_number };

    fn number(&self) -> u8 {
        *self as u8
    }
}

impl Refusal for GiveBackRefusal {
    ghost number = { give_back_number };

    fn number(&self) -> u8 {
        *self as u8
    }
}

impl Refusal for RecordRefusal {
    ghost number = { record_number };

    fn number(&self) -> u8 {
        *self as u8
    }
}

impl Refusal for TagsRefusal {
    ghost number = { tags_number };

    fn number(&self) -> u8 {
        *self as u8
    }
}

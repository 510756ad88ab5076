// What the record and the outlet hold.
ghost use Rattle.std.specs.Prelude.{◌<◌};

use crate::below::{Channel, CoreNumber, UnitCount};

/// How a unit of a core ended.
#[derive(Clone, Copy, PartialEq, Eq, Debug)]
pub enum Mark {
    // it was performed whole
    Completed,
    // it faulted, and nothing that it wrote or sent stays
    Discarded,
    // it faulted after taking the token early, and what it wrote and sent stays
    Kept,
}

/// An entry of the record: which core finished a unit, how, and how many instructions it performed.
#[derive(Clone, Copy, PartialEq, Eq, Debug)]
pub struct RecordEntry {
    pub core: CoreNumber,
    pub mark: Mark,
    pub count: UnitCount,
}

// What stands where a record has no entry yet.
impl Default for RecordEntry {
    ghost use Rattle.std.specs.Prelude.{◌≡◌};
    ghost use Rattle.formats.specs.declared.entry.Mark.TheVariants.{Completed};

    ghost is_default = { λ e. (e.core.value ≡ 0) × (e.mark ≡ Completed) × (e.count.value ≡ 0) };

    fn default() -> RecordEntry {
        RecordEntry {
            core: CoreNumber::new(0).unwrap(),
            mark: Mark::Completed,
            count: UnitCount::new(0).unwrap(),
        }
    }
}

/// An entry of the outlet: a word sent on a channel.
#[derive(Clone, Copy, PartialEq, Eq, Debug)]
pub struct SentEntry {
    pub channel: Channel,
    pub word: u32,
    ghost fits: { word < 4294967296 },
}

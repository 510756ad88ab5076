// The number of a mark.
ghost use Rattle.std.specs.Prelude.{◌≡◌};
ghost use Rattle.formats.specs.Records.{mark_number, mark_from};

use crate::entry::Mark;
use crate::refusal::EntryFault;

impl Mark {
    /// 0 to 2.
    pub fn number(self) -> u8
        ensures { result ≡ mark_number self }
    {
        self as u8
    }
}

// The mark of a number, which has to be 0 to 2.
impl TryFrom<u32> for Mark {
    type Error = EntryFault;

    ghost try_from_gives = { λ n res. res ≡ mark_from n };

    fn try_from(value: u32) -> Result<Mark, EntryFault> {
        match value {
            0 => Ok(Mark::Completed),
            1 => Ok(Mark::Discarded),
            2 => Ok(Mark::Kept),
            _ => Err(EntryFault::OutOfRange),
        }
    }
}

// The kinds of calls, with the number that stands for each.
ghost use Rattle.std.specs.Prelude.{◌≡◌};
ghost use Rattle.calls.specs.Kinds.{kind_at};

use crate::call::CallFault;

#[derive(Clone, Copy, PartialEq, Eq, Debug)]
pub(crate) enum Kind {
    Step = 1,
    Turn = 2,
    Clear = 3,
    Hold = 4,
    Read = 5,
    GiveBack = 6,
    Take = 7,
}

impl TryFrom<u32> for Kind {
    type Error = CallFault;

    ghost try_from_gives = { λ n res. res ≡ kind_at n };

    fn try_from(value: u32) -> Result<Kind, CallFault> {
        match value {
            1 => Ok(Kind::Step),
            2 => Ok(Kind::Turn),
            3 => Ok(Kind::Clear),
            4 => Ok(Kind::Hold),
            5 => Ok(Kind::Read),
            6 => Ok(Kind::GiveBack),
            7 => Ok(Kind::Take),
            _ => Err(CallFault::UnknownKind),
        }
    }
}

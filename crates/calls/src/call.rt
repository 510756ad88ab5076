// A call as four bytes: its kind, and then its operand.
ghost use Rattle.std.specs.Prelude.{◌≡◌, ℕ, Some, Ok};
ghost use Rattle.model.specs.declared.call.Call.{Call as ModelCall};
ghost use Rattle.calls.specs.Calls.{call_of, bare, code_of, operand_code, fault_number};
ghost use Rattle.calls.specs.Kinds.{kind_number};

use crate::kind::Kind;
use model::call::Call;

// An operand is below this.
const OPERANDS: usize = 16777216;

/// Four bytes that are no call.
#[derive(Clone, Copy, PartialEq, Eq, Debug)]
pub enum CallFault {
    // the kind is none of 1 to 7
    UnknownKind = 2,
    // an operand where the kind has none
    BadOperand = 3,
}

impl CallFault {
    /// The number by which the fault is reported.
    pub fn number(self) -> u8
        ensures { result ≡ fault_number self }
    {
        self as u8
    }
}

// The call where its operand is zero, and else the fault.
fn bare(operand: u32, call: Call) -> Result<Call, CallFault>
    ensures { result ≡ bare operand call }
{
    (operand == 0).then_some(call).ok_or(CallFault::BadOperand)
}

/// The call that a word spells: the kind in its highest eight bits, the operand in the others.
pub fn decode(word: u32) -> Result<Call, CallFault>
    ensures value { result ≡ call_of word }
    ensures back { (c : ModelCall) → result ≡ Ok c → code_of c ≡ Some word }
{
    let operand = word % 16777216;
    match Kind::try_from(word / 16777216)? {
        Kind::Step => Ok(Call::Step(operand as usize)),
        Kind::Turn => bare(operand, Call::Turn),
        Kind::Clear => bare(operand, Call::Clear),
        Kind::Hold => bare(operand, Call::Hold),
        Kind::Read => Ok(Call::Read(operand as usize)),
        Kind::GiveBack => bare(operand, Call::GiveBack),
        Kind::Take => bare(operand, Call::Take),
    }
}

// The word of a kind with an operand, or None where the operand does not fit.
fn with_operand(kind: Kind, operand: usize) -> Option<u32>
    ensures { result ≡ operand_code (kind_number kind) operand }
{
    (operand < OPERANDS).then(|| kind as u32 * 16777216 + operand as u32)
}

/// The word of a call, or None where its operand does not fit.
pub fn encode(call: Call) -> Option<u32>
    ensures value { result ≡ code_of call }
    ensures again { (w : ℕ) → result ≡ Some w → call_of w ≡ Ok call }
{
    match call {
        Call::Step(i) => with_operand(Kind::Step, i),
        Call::Turn => with_operand(Kind::Turn, 0),
        Call::Clear => with_operand(Kind::Clear, 0),
        Call::Hold => with_operand(Kind::Hold, 0),
        Call::Read(address) => with_operand(Kind::Read, address),
        Call::GiveBack => with_operand(Kind::GiveBack, 0),
        Call::Take => with_operand(Kind::Take, 0),
    }
}

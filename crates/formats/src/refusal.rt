// Why a call was refused: each case is a question that was answered with no.
ghost use Rattle.std.specs.Prelude.{◌≡◌, ℕ};
ghost use Rattle.formats.specs.Refusals.{instruction_number, entry_number, program_number, list_number, placed_number};
ghost use Rattle.formats.specs.Refusals.{outside_list_number, outside_memory_number, nothing_waits_number, placed_fault};
ghost use Rattle.formats.specs.Refusals.{program_refusal};
ghost use Rattle.formats.specs.declared.refusal.ListRefusal.TheVariants.{Entry};

// The questions of refusals that are structs without cases, which have no number of their own.
const INSIDE_MEMORY: u8 = 14;

const ENTRY_WAITS: u8 = 15;

const INSIDE_LIST: u8 = 16;

/// A refusal has the number of its question.
pub trait Refusal {
    ghost number: { Self → ℕ };

    fn number(&self) -> u8
        ensures { result ≡ number self.now };
}

/// An instruction that does not unpack.
#[derive(Clone, Copy, PartialEq, Eq, Debug)]
pub enum InstructionFault {
    // the opcode is none of 0 to 14
    UnknownOpcode = 2,
    // a field that the instruction does not name is not zero, or OUT's channel is above 255
    BadField = 3,
}

/// A record entry that does not unpack.
#[derive(Clone, Copy, PartialEq, Eq, Debug)]
pub enum EntryFault {
    // mark above 2, a spare bit set, or a count above 4,096
    OutOfRange = 18,
}

/// A program that is not accepted.
#[derive(Clone, Copy, PartialEq, Eq, Debug)]
pub enum ProgramFault {
    // the byte count is no multiple of 4 from 4 to 2,048
    ByteCount,
    // an instruction that does not unpack
    Instruction(InstructionFault),
    // a jump to a place that is not below the instruction count
    TargetOutside,
    // the last instruction is neither HALT nor JUMP
    NoEnd,
}

/// A fault with the place of the entry that has it, counted from 0.
#[derive(Clone, Copy, PartialEq, Eq, Debug)]
pub struct Placed<F> {
    pub fault: F,
    pub place: usize,
}

/// A place of a packed list that has no entry, or whose bytes do not unpack.
#[derive(Clone, Copy, PartialEq, Eq, Debug)]
pub enum ListRefusal<F> {
    // the place is not inside the bytes
    Outside,
    // the entry there does not unpack
    Entry(Placed<F>),
}

/// The place is not inside the bytes of a packed list.
#[derive(Clone, Copy, PartialEq, Eq, Debug)]
pub struct OutsideList;

/// A program that is not accepted, at the instruction that says so.
pub type ProgramRefusal = Placed<ProgramFault>;

/// The address is not below the memory's length.
#[derive(Clone, Copy, PartialEq, Eq, Debug)]
pub struct OutsideMemory;

/// No entry waits in the outlet.
#[derive(Clone, Copy, PartialEq, Eq, Debug)]
pub struct NothingWaits;

/// The outlet has no room.
#[derive(Clone, Copy, PartialEq, Eq, Debug)]
pub struct NoRoom;

impl Refusal for InstructionFault {
    ghost number = { instruction_number };

    fn number(&self) -> u8 {
        *self as u8
    }
}

impl Refusal for EntryFault {
    ghost number = { entry_number };

    fn number(&self) -> u8 {
        *self as u8
    }
}

// A match: a case that carries values has no number of its own.
impl Refusal for ProgramFault {
    ghost number = { program_number };

    fn number(&self) -> u8 {
        match self {
            ProgramFault::ByteCount => 1,
            ProgramFault::Instruction(fault) => fault.number(),
            ProgramFault::TargetOutside => 4,
            ProgramFault::NoEnd => 5,
        }
    }
}

/// The fault of an entry, at its place.
pub fn at_place<T, F>(res: Result<T, F>, place: usize) -> Result<T, Placed<F>>
    ensures { result ≡ placed_fault place res }
{
    res.map_err(|fault| Placed { fault, place })
}

impl<F> From<Placed<F>> for ListRefusal<F> {
    ghost from_gives = { λ p r. r ≡ Entry p };

    fn from(value: Placed<F>) -> ListRefusal<F> {
        ListRefusal::Entry(value)
    }
}

// A fault inside a list of instructions becomes the program's, at its place. A place outside the bytes means too few bytes.
impl From<ListRefusal<InstructionFault>> for ProgramRefusal {
    ghost from_gives = { λ l r. r ≡ program_refusal l };

    fn from(value: ListRefusal<InstructionFault>) -> ProgramRefusal {
        match value {
            ListRefusal::Outside => ProgramRefusal {
                fault: ProgramFault::ByteCount,
                place: 0,
            },
            ListRefusal::Entry(placed) => ProgramRefusal {
                fault: ProgramFault::Instruction(placed.fault),
                place: placed.place,
            },
        }
    }
}

impl<F: Refusal> Refusal for ListRefusal<F> {
    ghost number = { list_number F.Refusal.number };

    fn number(&self) -> u8 {
        match self {
            ListRefusal::Outside => INSIDE_LIST,
            ListRefusal::Entry(placed) => placed.number(),
        }
    }
}

impl Refusal for OutsideList {
    ghost number = { outside_list_number };

    fn number(&self) -> u8 {
        INSIDE_LIST
    }
}

impl Refusal for OutsideMemory {
    ghost number = { outside_memory_number };

    fn number(&self) -> u8 {
        INSIDE_MEMORY
    }
}

impl Refusal for NothingWaits {
    ghost number = { nothing_waits_number };

    fn number(&self) -> u8 {
        ENTRY_WAITS
    }
}

// The place does not change the number.
impl<F: Refusal> Refusal for Placed<F> {
    ghost number = { placed_number F.Refusal.number };

    fn number(&self) -> u8 {
        self.fault.number()
    }
}

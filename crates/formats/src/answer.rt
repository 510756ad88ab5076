// What a step answers, and the faults that stop a core.
ghost use Rattle.std.specs.Prelude.{◌≡◌};
ghost use Rattle.formats.specs.Answers.{fault_number, answer_number};

/// Why a core was stopped at an instruction, with its number.
#[derive(Clone, Copy, PartialEq, Eq, Debug)]
pub enum Fault {
    // the address lies outside the memory
    AddressOutside = 1,
    // END, RETRY or EARLY with no open block
    NoOpenBlock = 2,
    // BEGIN with 255 BEGINs open
    TooDeep = 3,
    // the block has performed 4,096 instructions already
    TooLong = 4,
    // HALT inside a block
    HaltInBlock = 5,
    // RETRY after the block took the token early
    RetryAfterEarly = 6,
}

impl Fault {
    /// The number by which the fault is reported.
    pub fn number(self) -> u8
        ensures { result ≡ fault_number self }
    {
        self as u8
    }
}

/// What a step, or a turn, that was not refused answers.
#[derive(Clone, Copy, PartialEq, Eq, Debug)]
pub enum Answer {
    Running,
    Waiting,
    Done,
    Committing,
    Early,
    Full,
    Stopped,
    RolledBack,
    Retried,
    Faulted { fault: Fault, pc: usize },
}

impl Answer {
    /// The number by which the answer is reported. A match: a case that carries values has no number of its own.
    pub fn number(self) -> u8
        ensures { result ≡ answer_number self }
    {
        match self {
            Answer::Running => 1,
            Answer::Waiting => 2,
            Answer::Done => 3,
            Answer::Committing => 4,
            Answer::Early => 5,
            Answer::Full => 6,
            Answer::Stopped => 7,
            Answer::RolledBack => 8,
            Answer::Retried => 9,
            Answer::Faulted { .. } => 10,
        }
    }
}

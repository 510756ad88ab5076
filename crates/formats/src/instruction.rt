// The instructions of a core, and the fields of an instruction's word.
use crate::below::{Channel, Immediate};
use crate::register::Register;

/// One instruction. The fields `d`, `a` and `b` name registers, and `n` is the number that stands in the instruction.
#[derive(Clone, Copy, PartialEq, Eq, Debug)]
pub enum Instruction {
    Halt,
    Set {
        d: Register,
        n: Immediate,
    },
    Add {
        d: Register,
        a: Register,
        b: Register,
    },
    Sub {
        d: Register,
        a: Register,
        b: Register,
    },
    Mean {
        d: Register,
        a: Register,
        b: Register,
    },
    Load {
        d: Register,
        a: Register,
        n: Immediate,
    },
    Store {
        a: Register,
        b: Register,
        n: Immediate,
    },
    Jump {
        n: Immediate,
    },
    Jz {
        a: Register,
        n: Immediate,
    },
    Jlt {
        a: Register,
        b: Register,
        n: Immediate,
    },
    Begin,
    End,
    Retry,
    Early,
    Out {
        a: Register,
        channel: Channel,
    },
}

/// The five fields of an instruction's word.
#[derive(Clone, Copy, PartialEq, Eq, Debug)]
pub struct Fields {
    pub opcode: u32,
    pub d: Register,
    pub a: Register,
    pub b: Register,
    pub n: Immediate,
}

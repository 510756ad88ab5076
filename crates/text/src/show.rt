// How registers, instructions and entries are written.
ghost use Rattle.std.specs.Prelude.{◌≡◌, Some};
ghost use Rattle.text.specs.Texts.{register_text, instruction_text, record_text, sent_text};

use formats::entry::{RecordEntry, SentEntry};
use formats::instruction::Instruction;
use formats::register::Register;
use std::fmt;

/// What the console writes for a value.
#[derive(Clone, Copy, PartialEq, Eq, Debug)]
pub struct Shown<T>(pub T);

// A register: `R0` to `R7`.
impl fmt::Display for Shown<Register> {
    ghost output = { λ r. Some (register_text r.0) };

    fn fmt<W: fmt::Write>(&self, f: &mut fmt::Formatter<W>) -> fmt::Result {
        write!(f, "R{}", self.0.number())
    }
}

// An instruction: its name in capitals, and its named fields in the order d, a, b, n.
impl fmt::Display for Shown<Instruction> {
    ghost output = { λ i. Some (instruction_text i.0) };

    fn fmt<W: fmt::Write>(&self, f: &mut fmt::Formatter<W>) -> fmt::Result {
        match self.0 {
            Instruction::Halt => f.write_str("HALT"),
            Instruction::Set { d, n } => write!(f, "SET {} {}", Shown(d), n.value()),
            Instruction::Add { d, a, b } => write!(f, "ADD {} {} {}", Shown(d), Shown(a), Shown(b)),
            Instruction::Sub { d, a, b } => write!(f, "SUB {} {} {}", Shown(d), Shown(a), Shown(b)),
            Instruction::Mean { d, a, b } => write!(
                f,
                "MEAN {} {} {}",
                Shown(d),
                Shown(a),
                Shown(b)
            ),
            Instruction::Load { d, a, n } => write!(
                f,
                "LOAD {} {} {}",
                Shown(d),
                Shown(a),
                n.value()
            ),
            Instruction::Store { a, b, n } => write!(
                f,
                "STORE {} {} {}",
                Shown(a),
                Shown(b),
                n.value()
            ),
            Instruction::Jump { n } => write!(f, "JUMP {}", n.value()),
            Instruction::Jz { a, n } => write!(f, "JZ {} {}", Shown(a), n.value()),
            Instruction::Jlt { a, b, n } => write!(
                f,
                "JLT {} {} {}",
                Shown(a),
                Shown(b),
                n.value()
            ),
            Instruction::Begin => f.write_str("BEGIN"),
            Instruction::End => f.write_str("END"),
            Instruction::Retry => f.write_str("RETRY"),
            Instruction::Early => f.write_str("EARLY"),
            Instruction::Out { a, channel } => write!(f, "OUT {} {}", Shown(a), channel.value()),
        }
    }
}

// A record entry: its core, mark and count.
impl fmt::Display for Shown<RecordEntry> {
    ghost output = { λ e. Some (record_text e.0) };

    fn fmt<W: fmt::Write>(&self, f: &mut fmt::Formatter<W>) -> fmt::Result {
        let RecordEntry { core, mark, count } = self.0;
        write!(
            f,
            "core {} mark {} count {}",
            core.value(),
            mark.number(),
            count.value()
        )
    }
}

// An outlet entry: its channel and word.
impl fmt::Display for Shown<SentEntry> {
    ghost output = { λ e. Some (sent_text e.0) };

    fn fmt<W: fmt::Write>(&self, f: &mut fmt::Formatter<W>) -> fmt::Result {
        write!(f, "channel {} word {}", self.0.channel.value(), self.0.word)
    }
}

// Entries with their packed form.
ghost use Rattle.std.specs.Prelude.{Some, Ok};
ghost use Rattle.console.specs.ReplyTexts.{instruction_reply, entry_reply, sent_reply};

use codecs::packed_entry::PackedEntry;
use formats::entry::{RecordEntry, SentEntry};
use formats::instruction::Instruction;
use std::fmt;
use text::hexadecimal::Hex;
use text::show::Shown;

// An entry's text and its packed form.
#[derive(Clone, Copy, PartialEq, Eq, Debug)]
pub(crate) struct Packed<E>(pub E);

impl fmt::Display for Packed<Instruction> {
    ghost output = { λ p. Some (instruction_reply (Ok p.0)) };

    fn fmt<W: fmt::Write>(&self, f: &mut fmt::Formatter<W>) -> fmt::Result {
        let Packed(instruction) = *self;
        write!(
            f,
            "{} = 0x{}",
            Shown(instruction),
            Hex::<4>(instruction.pack())
        )
    }
}

impl fmt::Display for Packed<RecordEntry> {
    ghost output = { λ p. Some (entry_reply p.0) };

    fn fmt<W: fmt::Write>(&self, f: &mut fmt::Formatter<W>) -> fmt::Result {
        let Packed(entry) = *self;
        write!(f, "{} = 0x{}", Shown(entry), Hex::<4>(entry.pack()))
    }
}

impl fmt::Display for Packed<SentEntry> {
    ghost output = { λ p. Some (sent_reply (Ok p.0)) };

    fn fmt<W: fmt::Write>(&self, f: &mut fmt::Formatter<W>) -> fmt::Result {
        let Packed(entry) = *self;
        write!(f, "{} = {}", Shown(entry), Hex::<5>(entry.pack()))
    }
}

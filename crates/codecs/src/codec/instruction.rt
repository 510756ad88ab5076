// The packed form of an instruction: one word, most significant byte first.
ghost use Rattle.std.specs.Prelude.{◌≡◌, ◌<◌};
ghost use Rattle.formats.specs.Instructions.{placed, joined, split, encoded, decoded, only_if, instruction_bytes, bytes_instruction};
ghost use Rattle.formats.specs.Instructions.{instruction_word, word_instruction};
ghost use Rattle.formats.proofs.Bytes.{bytes_sized, again_from, back_from};
ghost use Rattle.formats.proofs.Instructions.{word_fits, word_again, word_back};
ghost use Rattle.std.proofs.Common.{rules};

use crate::codec::truncated::{register_of, truncated};
use crate::packed_entry::PackedEntry;
use formats::below::Immediate;
use formats::instruction::{Fields, Instruction};
use formats::refusal::InstructionFault;
use formats::register::Register;

// The fields, by place.
fn place(opcode: u32, d: Register, a: Register, b: Register, n: Immediate) -> Fields
    ensures { result ≡ placed opcode d a b n }
{
    Fields { opcode, d, a, b, n }
}

// The fields of a word: opcode 5 bits, d 3, a 3, b 3, n 18, most significant first.
fn split(word: u32) -> Fields
    ensures { result ≡ split word }
{
    Fields {
        opcode: word / 134217728,
        d: register_of(word / 16777216 % 8),
        a: register_of(word / 2097152 % 8),
        b: register_of(word / 262144 % 8),
        n: truncated(word),
    }
}

// The word of some fields.
fn join(fields: Fields) -> u32
    requires { fields.opcode < 32 }
    ensures { result ≡ joined fields }
{
    let d = u32::from(fields.d.number());
    let a = u32::from(fields.a.number());
    let b = u32::from(fields.b.number());
    fields.opcode * 134217728 + d * 16777216 + a * 2097152 + b * 262144 + fields.n.value()
}

// The instruction where its unnamed fields are zero, and else the refusal.
fn only_if(zero: bool, instruction: Instruction) -> Result<Instruction, InstructionFault>
    ensures { result ≡ only_if zero instruction }
{
    zero.then_some(instruction)
        .ok_or(InstructionFault::BadField)
}

// The instruction's opcode and fields; a field that it does not name is zero.
fn encode(instruction: Instruction) -> Fields
    ensures { result ≡ encoded instruction }
{
    let zero = truncated(0);
    let none = Register::R0;
    match instruction {
        Instruction::Halt => place(0, none, none, none, zero),
        Instruction::Set { d, n } => place(1, d, none, none, n),
        Instruction::Add { d, a, b } => place(2, d, a, b, zero),
        Instruction::Sub { d, a, b } => place(3, d, a, b, zero),
        Instruction::Mean { d, a, b } => place(4, d, a, b, zero),
        Instruction::Load { d, a, n } => place(5, d, a, none, n),
        Instruction::Store { a, b, n } => place(6, none, a, b, n),
        Instruction::Jump { n } => place(7, none, none, none, n),
        Instruction::Jz { a, n } => place(8, none, a, none, n),
        Instruction::Jlt { a, b, n } => place(9, none, a, b, n),
        Instruction::Begin => place(10, none, none, none, zero),
        Instruction::End => place(11, none, none, none, zero),
        Instruction::Retry => place(12, none, none, none, zero),
        Instruction::Early => place(13, none, none, none, zero),
        Instruction::Out { a, channel } => place(14, none, a, none, truncated(channel.value())),
    }
}

// The instruction that some fields spell. The opcode is asked for first, then the fields.
fn decode(f: Fields) -> Result<Instruction, InstructionFault>
    ensures { result ≡ decoded f }
{
    let Fields { opcode, d, a, b, n } = f;
    let no_d = d.number() == 0;
    let no_a = a.number() == 0;
    let no_b = b.number() == 0;
    let no_n = n.value() == 0;
    let none = no_d & no_a & no_b & no_n;
    match opcode {
        0 => only_if(none, Instruction::Halt),
        1 => only_if(no_a & no_b, Instruction::Set { d, n }),
        2 => only_if(no_n, Instruction::Add { d, a, b }),
        3 => only_if(no_n, Instruction::Sub { d, a, b }),
        4 => only_if(no_n, Instruction::Mean { d, a, b }),
        5 => only_if(no_b, Instruction::Load { d, a, n }),
        6 => only_if(no_d, Instruction::Store { a, b, n }),
        7 => only_if(no_d & no_a & no_b, Instruction::Jump { n }),
        8 => only_if(no_d & no_b, Instruction::Jz { a, n }),
        9 => only_if(no_d, Instruction::Jlt { a, b, n }),
        10 => only_if(none, Instruction::Begin),
        11 => only_if(none, Instruction::End),
        12 => only_if(none, Instruction::Retry),
        13 => only_if(none, Instruction::Early),
        14 => only_if(
            no_d & no_b & (n.value() < 256),
            Instruction::Out {
                a,
                channel: truncated(n.value()),
            },
        ),
        15.. => Err(InstructionFault::UnknownOpcode),
    }
}

impl PackedEntry for Instruction {
    type Fault = InstructionFault;

    const BYTES: usize = 4;

    ghost width = { 4 };

    ghost packed = { instruction_bytes };

    ghost unpacked = { bytes_instruction };

    ghost some = { Prim.search rules };

    ghost few = { Prim.search rules };

    ghost sized = { λ e. bytes_sized 4 (instruction_word e) };

    ghost again = { again_from 4 instruction_word word_instruction word_fits word_again };

    ghost back = { back_from 4 instruction_word word_instruction word_back };

    fn size() -> usize {
        Self::BYTES
    }

    fn pack(self) -> u64 {
        u64::from(join(encode(self)))
    }

    fn unpack(code: u64) -> Result<Instruction, InstructionFault> {
        decode(split((code % 4294967296) as u32))
    }
}

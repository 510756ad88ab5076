// Reading a program from bytes: the byte count first, then each instruction in turn, then the last one.
ghost use Rattle.std.specs.Prelude.{◌≡◌};
ghost use Rattle.codecs.specs.Accepted.{target_inside, ends};
ghost use Rattle.codecs.specs.Reading.{good_count, instruction_at, read_program};

use super::Program;
use crate::packed_list::{count, get};
use formats::bounds::MOST_INSTRUCTIONS;
use formats::instruction::Instruction;
use formats::refusal::{InstructionFault, ProgramFault, ProgramRefusal};

// Whether the bytes can be a program: a multiple of 4 from 4 to 2,048.
fn good_count(bytes: usize) -> bool
    ensures { result ≡ good_count bytes }
{
    bytes % 4 == 0 && (4..=2048).contains(&bytes)
}

// Whether a jump of a program of `count` instructions leads to one of them.
fn target_inside(count: usize, instruction: Instruction) -> bool
    ensures { result ≡ target_inside count instruction }
{
    match instruction {
        Instruction::Jump { n } | Instruction::Jz { n, .. } | Instruction::Jlt { n, .. } => {
            (n.value() as usize) < count
        }
        _ => true,
    }
}

// Whether a program may end with the instruction.
fn may_end(instruction: Instruction) -> bool
    ensures { result ≡ ends instruction }
{
    matches!(instruction, Instruction::Halt | Instruction::Jump { .. })
}

// The instruction at a place of a program of `count` instructions, or the first question that it fails.
fn instruction_at(count: usize, bytes: &[u8], place: usize) -> Result<Instruction, ProgramRefusal>
    ensures { result ≡ instruction_at count bytes.now place }
{
    let instruction = get::<Instruction>(bytes, place)?;
    if target_inside(count, instruction) {
        Ok(instruction)
    } else {
        Err(ProgramRefusal {
            fault: ProgramFault::TargetOutside,
            place,
        })
    }
}

impl Program {
    /// The program that the bytes hold, or the first refusal with the number of its instruction.
    pub fn read(bytes: &[u8]) -> Result<Program, ProgramRefusal>
        ensures { result ≡ read_program bytes.now }
    {
        if !good_count(bytes.len()) {
            return Err(ProgramRefusal {
                fault: ProgramFault::ByteCount,
                place: 0,
            });
        }
        let count = count::<Instruction>(bytes);
        let mut instructions = [Instruction::Halt; MOST_INSTRUCTIONS];
        // By place, which is what the packed list is asked for.
        for place in 0..count {
            instructions[place] = instruction_at(count, bytes, place)?;
        }
        if may_end(instructions[count - 1]) {
            Ok(Program {
                instructions,
                count,
            })
        } else {
            Err(ProgramRefusal {
                fault: ProgramFault::NoEnd,
                place: count - 1,
            })
        }
    }
}

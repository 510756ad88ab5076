// Looking at an accepted program.
ghost use Rattle.std.specs.Prelude.{◌≡◌, ◌<◌, ◌≤◌, true, false, length, slice_index_or};
ghost use Rattle.formats.specs.declared.instruction.Instruction.TheVariants.{Halt};
ghost use Rattle.codecs.specs.Accepted.{Accepted, target_inside, ends};
ghost use Rattle.codecs.specs.Programs.{instruction_in};

use super::Program;
use formats::bounds::MOST_INSTRUCTIONS;
use formats::instruction::Instruction;

impl Program {
    /// The instructions, in order.
    pub fn as_slice(&self) -> &[Instruction]
        ensures value { result.now ≡ self.now }
        ensures accepted { Accepted self.now }
    {
        &self.instructions[..self.count]
    }

    /// How many instructions it has, 1 to 512.
    pub fn len(&self) -> usize
        ensures value { result ≡ length self.now }
        ensures few { result ≤ MOST_INSTRUCTIONS }
    {
        self.as_slice().len()
    }

    /// The instruction at a place, or None past the last.
    pub fn get(&self, place: usize) -> Option<Instruction>
        ensures { result ≡ instruction_in self.now place }
    {
        self.as_slice().get(place).copied()
    }

    /// The instruction at a place, HALT past the last. A jump of it stays below 512, and one that goes on with the next
    /// instruction has a next place to go on at.
    pub fn at(&self, pc: usize) -> Instruction
        ensures value { result ≡ slice_index_or self.now pc Halt }
        ensures targets { target_inside MOST_INSTRUCTIONS result ≡ true }
        ensures onward { ends result ≡ false → pc < 511 }
    {
        self.as_slice()
            .get(pc)
            .copied()
            .unwrap_or(Instruction::Halt)
    }
}

// An accepted program.
use formats::bounds::MOST_INSTRUCTIONS;
use formats::instruction::Instruction;
use std::marker::Model;

mod access;
mod reader;

/// One to 512 instructions whose jumps lead to one of them, and whose last is HALT or JUMP. Seen as the list of them.
/// An array with a count: nothing is allocated, and a program is copied into each engine.
#[derive(Clone, Copy, PartialEq, Eq, Debug)]
pub struct Program {
    instructions: [Instruction; MOST_INSTRUCTIONS],
    count: usize,
}

impl Model for Program {
    ghost use Rattle.std.specs.Prelude.{List};
    ghost use Rattle.formats.specs.declared.instruction.Instruction.{Instruction as Listed};

    ghost Value = { List Listed };

    ghost use Rattle.std.specs.Prelude.{◌-◌, ◌++◌, length, drop, replicate};
    ghost use Rattle.std.proofs.Common.{◌≡◌, sym, ap, ◌∙◌, arith, length-take-le, take-append-drop};
    ghost use Rattle.formats.specs.declared.instruction.Instruction.TheVariants.{Halt};
    ghost use Rattle.codecs.specs.Programs.{front, InFront, with_blanks};

    ghost view = { front };

    ghost invariant = { InFront };

    ghost inverse = { with_blanks };

    ghost inverse_ok = { λ p h.
        let long : length (front p) ≡ p.count = length-take-le p.count p.instructions (omega (arith, h.sized, h.within)) in
        let whole : front p ++ replicate (512 - length (front p)) Halt ≡ p.instructions =
        ap (λ n. front p ++ replicate (512 - n) Halt) long ∙ ap (λ r. front p ++ r) (sym h.blank)
        ∙ take-append-drop p.count p.instructions in
        λ i. record { instructions = whole i; count = long i } };
}

// What an instruction asks for at a context, and the ways in which a context changes.
ghost use Rattle.std.specs.Prelude.{◌≡◌, ◌+◌, ◌<◌, ◌≤◌, true, false, suc, if◌then◌else◌};
ghost use Rattle.formats.specs.Sents.{sent_word};
ghost use Rattle.codecs.specs.Accepted.{target_inside, ends};
ghost use Rattle.model.specs.declared.action.Action.TheVariants.{Performs};
ghost use Rattle.model.specs.declared.action.Operation.TheVariants.{Sets, Jumps};
ghost use Rattle.model.specs.Instructions.{reg, past, with_reg, action, outside};
ghost use Rattle.model.specs.Cores.{accesses};
ghost use Rattle.cores.specs.Onwards.{Onward};

use formats::below::{Channel, Immediate};
use formats::bounds::MOST_INSTRUCTIONS;
use formats::entry::SentEntry;
use formats::instruction::Instruction;
use formats::register::Register;
use model::action::{Action, Operation};
use model::context::Context;

// The word in a register.
pub(crate) fn read(context: &Context, register: Register) -> u32
    ensures { result ≡ reg context.now register }
{
    context.registers[usize::from(register.number())]
}

// The next instruction is next.
pub(crate) fn pass(context: &mut Context)
    requires { context.old.pc ≤ 511 }
    ensures { context.new ≡ past context.old }
{
    context.pc += 1;
}

// The same with another word in a register.
pub(crate) fn set(context: &mut Context, register: Register, word: u32)
    requires { context.old.pc ≤ 511 }
    ensures { context.new ≡ with_reg context.old register word }
{
    context.registers[usize::from(register.number())] = word;
    context.pc += 1;
}

// Register d becomes a word.
fn sets(d: Register, word: u32) -> Action
    ensures { result ≡ Performs (Sets d word) }
{
    Action::Performs(Operation::Sets { d, word })
}

// Going on at an instruction where a test passes, and with the next one where it fails.
fn jumps(context: &Context, passes: bool, target: Immediate) -> Action
    requires { context.now.pc < 511 }
    ensures { result ≡ Performs (Jumps (if passes then target.value else suc context.now.pc)) }
{
    let pc = if passes {
        target.value() as usize
    } else {
        context.pc + 1
    };
    Action::Performs(Operation::Jumps { pc })
}

// The exact sum of a register's word and an instruction's number.
fn address(context: &Context, a: Register, n: Immediate) -> usize
    ensures { result ≡ reg context.now a + n.value }
{
    read(context, a) as usize + n.value() as usize
}

// An entry of the outlet.
fn sent(channel: Channel, word: u32) -> SentEntry
    ensures { result ≡ sent_word channel word }
{
    SentEntry { channel, word }
}

// What an instruction of a program asks for at its context.
#[inline(always)]
pub(crate) fn action_of(instruction: Instruction, context: &Context) -> Action
    requires targets { target_inside MOST_INSTRUCTIONS instruction ≡ true }
    requires onward { ends instruction ≡ false → context.now.pc < 511 }
    ensures value { result ≡ action instruction context.now }
    ensures onward { Onward context.now.pc result }
{
    match instruction {
        Instruction::Halt => Action::Halts,
        Instruction::Set { d, n } => sets(d, n.value()),
        Instruction::Add { d, a, b } => { sets(d, read(context, a).wrapping_add(read(context, b))) }
        Instruction::Sub { d, a, b } => { sets(d, read(context, a).wrapping_sub(read(context, b))) }
        Instruction::Mean { d, a, b } => {
            let sum = u64::from(read(context, a)) + u64::from(read(context, b));
            sets(d, (sum / 2) as u32)
        }
        Instruction::Load { d, a, n } => Action::Performs(Operation::Loads {
            address: address(context, a, n),
            d,
        }),
        Instruction::Store { a, b, n } => Action::Performs(Operation::Stores {
            address: address(context, a, n),
            word: read(context, b),
        }),
        Instruction::Jump { n } => Action::Performs(Operation::Jumps {
            pc: n.value() as usize,
        }),
        Instruction::Jz { a, n } => jumps(context, read(context, a) == 0, n),
        Instruction::Jlt { a, b, n } => jumps(context, read(context, a) < read(context, b), n),
        Instruction::Begin => Action::Begins,
        Instruction::End => Action::Ends,
        Instruction::Retry => Action::Retries,
        Instruction::Early => Action::Earlies,
        Instruction::Out { a, channel } => {
            Action::Performs(Operation::Sends(sent(channel, read(context, a))))
        }
    }
}

// Whether an operation names an address that a memory of so many words does not have.
pub(crate) fn outside(operation: Operation, words: usize) -> bool
    ensures { result ≡ outside words operation }
{
    match operation {
        Operation::Loads { address, .. } | Operation::Stores { address, .. } => address >= words,
        Operation::Sets { .. } | Operation::Jumps { .. } | Operation::Sends(_) => false,
    }
}

// Whether an operation needs memory or outlet.
pub(crate) fn accesses(operation: Operation) -> bool
    ensures { result ≡ accesses operation }
{
    !matches!(operation, Operation::Sets { .. } | Operation::Jumps { .. })
}

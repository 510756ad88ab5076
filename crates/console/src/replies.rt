// What an engine answers to the console's commands, over any memory and any outlet, and the texts of replies.
ghost use Rattle.std.specs.Prelude.{◌≡◌, Some, Ok, IfOk, IfSome, string_bytes};
ghost use Rattle.model.specs.Refusals.{record_number};
ghost use Rattle.text.specs.Digits.{refused_text};
ghost use Rattle.console.specs.ReplyTexts.{text_or_refusal, result_text, refused_instruction, instruction_reply, entry_reply};
ghost use Rattle.console.specs.ReplyTexts.{record_reply, sent_reply, moved_reply, made_reply, spaced_values, status_reply};
ghost use Rattle.console.specs.Replies.{word_text, reply_text, TagsReply, CommandReply, engine_after};

use crate::command::EngineCommand;
use crate::moves::{repeat, repeated_reply};
use crate::packed_form::Packed;
use engine::engine::Hosted;
use formats::answer::Answer;
use formats::entry::{RecordEntry, SentEntry};
use formats::instruction::Instruction;
use formats::refusal::{
    EntryFault, InstructionFault, ListRefusal, NothingWaits, OutsideList, Refusal,
};
use memory::shared::Memory;
use model::call::Reply;
use model::refusal::{CheckRefusal, ReadRefusal, RecordRefusal, StepRefusal};
use model::state::Status;
use outlet::waiting::Outlet;
use std::alloc::{AllocError, Global};
use std::convert::Infallible;
use std::fmt;
use text::refused::{Refused, RefusedAt};
use text::show::Shown;

/// The reply to a command.
pub fn command_reply<M: Memory, O: Outlet>(
    heap: Global,
    hosted: &mut Hosted<M, O>,
    command: EngineCommand,
) -> Result<String, AllocError>
    ensures after { hosted.new ≡ engine_after hosted.old command }
    ensures reply { IfOk result (λ s. CommandReply hosted.old command (string_bytes s)) }
{
    match command {
        EngineCommand::Call(call) => reply_text(heap, hosted.perform(call)),
        EngineCommand::Moves(which, times) => repeated_reply(heap, repeat(hosted, which, times)),
        EngineCommand::Record(place) => recorded_reply(heap, hosted.record(place)),
        EngineCommand::Tags(core, places) => tags_reply(heap, hosted, core, places),
        EngineCommand::Core(core) => status_reply(heap, hosted.status(core)),
        EngineCommand::Token => format!(in heap; "{}", Shown(hosted.token())),
    }
}

// A word that was read, as a reply.
#[derive(Clone, Copy, PartialEq, Eq, Debug)]
struct Word(u32);

impl fmt::Display for Word {
    ghost output = { λ w. Some (word_text w.0) };

    fn fmt<W: fmt::Write>(&self, f: &mut fmt::Formatter<W>) -> fmt::Result {
        write!(f, "word {}", self.0)
    }
}

// The reply to a call that answers nothing but that it was done.
fn done_reply<R: Refusal + Drop>(
    heap: Global,
    answer: Result<(), R>,
    done: &str,
) -> Result<String, AllocError>
    ensures { IfOk result (λ s. string_bytes s ≡ text_or_refusal (λ _. done.now) R.Refusal.number answer) }
{
    result_text(heap, answer.map(|()| done))
}

// The text of what a call answered.
fn reply_text(heap: Global, reply: Reply) -> Result<String, AllocError>
    ensures { IfOk result (λ s. string_bytes s ≡ reply_text reply) }
{
    match reply {
        Reply::Stepped(answer) => moved_reply(heap, answer),
        Reply::Cleared(answer) => done_reply(heap, answer, "cleared"),
        Reply::Held(answer) => done_reply(heap, answer, "held"),
        Reply::Word(answer) => result_text(heap, answer.map(Word)),
        Reply::GivenBack(answer) => done_reply(heap, answer, "given back"),
        Reply::Taken(answer) => result_text(heap, answer.map(Shown)),
    }
}

// The reply for an entry of the record.
fn recorded_reply(
    heap: Global,
    answer: Result<RecordEntry, RecordRefusal>,
) -> Result<String, AllocError>
    ensures { IfOk result (λ s. string_bytes s ≡ text_or_refusal entry_reply record_number answer) }
{
    result_text(heap, answer.map(Packed))
}

// The tags that a list of so many places gets.
fn tags_reply<M: Memory, O: Outlet>(
    heap: Global,
    hosted: &Hosted<M, O>,
    core: usize,
    places: usize,
) -> Result<String, AllocError>
    ensures { IfOk result (λ s. TagsReply hosted.now core places (string_bytes s)) }
{
    let mut list: Vec<usize> = vec![in heap; 0; places]?;
    match hosted.tags(core, list.as_mut_slice()) {
        Ok(count) => {
            list.truncate(count);
            let addresses = spaced(heap, list.as_slice())?;
            format!(in heap; "{count}:{addresses}")
        }
        Err(refusal) => refused_text(heap, refusal),
    }
}

// A refusal without a place.
pub(crate) fn refused_text<R: Refusal + Drop>(
    heap: Global,
    refusal: R,
) -> Result<String, AllocError>
    ensures { IfOk result (λ s. string_bytes s ≡ refused_text (R.Refusal.number refusal)) }
{
    format!(in heap; "{}", Refused(refusal))
}

// The text of a value, or a refusal without a place.
pub(crate) fn result_text<T: fmt::Display + Drop, R: Refusal + Drop>(
    heap: Global,
    answer: Result<T, R>,
) -> Result<String, AllocError>
    ensures { IfOk result (λ s. IfSome (result_text T.Display.output R.Refusal.number answer) (λ text. string_bytes s ≡ text)) }
{
    match answer {
        Ok(value) => format!(in heap; "{value}"),
        Err(refusal) => refused_text(heap, refusal),
    }
}

// A place outside, or the number and the place of an instruction that does not unpack.
fn refused_instruction(
    heap: Global,
    refusal: ListRefusal<InstructionFault>,
) -> Result<String, AllocError>
    ensures { IfOk result (λ s. string_bytes s ≡ refused_instruction refusal) }
{
    match refusal {
        ListRefusal::Outside => refused_text(heap, refusal),
        ListRefusal::Entry(placed) => format!(in heap; "{}", RefusedAt(placed)),
    }
}

// A refused instruction comes with its place.
pub(crate) fn instruction_reply(
    heap: Global,
    unpacked: Result<Instruction, ListRefusal<InstructionFault>>,
) -> Result<String, AllocError>
    ensures { IfOk result (λ s. string_bytes s ≡ instruction_reply unpacked) }
{
    match unpacked {
        Ok(instruction) => format!(in heap; "{}", Packed(instruction)),
        Err(refusal) => refused_instruction(heap, refusal),
    }
}

// A refused record entry comes without its place.
pub(crate) fn record_reply(
    heap: Global,
    unpacked: Result<RecordEntry, ListRefusal<EntryFault>>,
) -> Result<String, AllocError>
    ensures { IfOk result (λ s. string_bytes s ≡ record_reply unpacked) }
{
    result_text(heap, unpacked.map(Packed))
}

// Any five bytes are an outlet entry, so only a place outside is refused.
pub(crate) fn sent_reply(
    heap: Global,
    unpacked: Result<SentEntry, ListRefusal<Infallible>>,
) -> Result<String, AllocError>
    ensures { IfOk result (λ s. string_bytes s ≡ sent_reply unpacked) }
{
    result_text(heap, unpacked.map(Packed).or(Err(OutsideList)))
}

// What a step or a turn answered.
pub(crate) fn moved_reply(
    heap: Global,
    moved: Result<Answer, StepRefusal>,
) -> Result<String, AllocError>
    ensures { IfOk result (λ s. string_bytes s ≡ moved_reply moved) }
{
    result_text(heap, moved.map(Shown))
}

/// How many cores a new engine has, or why it has none.
pub fn made_reply(
    heap: Global,
    checked: Result<(), CheckRefusal>,
    count: usize,
) -> Result<String, AllocError>
    ensures { IfOk result (λ s. string_bytes s ≡ made_reply checked count) }
{
    match checked {
        Ok(()) => format!(in heap; "cores {count}"),
        Err(refusal) => format!(in heap; "{} cores 0", Refused(refusal)),
    }
}

// Some values, a space before each.
pub(crate) fn spaced<T: fmt::Display>(heap: Global, values: &[T]) -> Result<String, AllocError>
    ensures { IfOk result (λ s. IfSome (spaced_values T.output values.now) (λ text. string_bytes s ≡ text)) }
{
    let mut written = String::new(heap);
    for value in values {
        write!(written, " {value}")?;
    }
    Ok(written)
}

// A core as people see it, or that there is none.
pub(crate) fn status_reply(heap: Global, status: Option<Status>) -> Result<String, AllocError>
    ensures { IfOk result (λ s. string_bytes s ≡ status_reply status) }
{
    let Some(status) = status else {
        return refused_text(heap, StepRefusal::NoSuchCore);
    };
    let registers = spaced(heap, &status.registers)?;
    format!(in heap;
        "{} pc {} registers{registers} depth {} count {} lines {}",
        Shown(status.state),
        status.pc,
        status.depth,
        status.count,
        status.used
    )
}

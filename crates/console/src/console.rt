// One scenario, line by line.
ghost use Rattle.std.specs.Prelude.{◌≡◌, ◌++◌, IfOk, OnOk};
ghost use Rattle.console.specs.Printed.{without_newline, text_of, echoed, head_text, reason_line, reply_line};
ghost use Rattle.console.specs.Words.{words_of};
ghost use Rattle.console.specs.Played.{nothing_set_up, Appends, IsSetUpOrDefault, IsSetUp, Answered, Explained, Played};

use crate::buffers::{MemoryBuffer, OutletBuffer};
use crate::command::{Command, EngineCommand, Settings};
use crate::line::write_line;
use crate::packed_answers;
use crate::reason::{ParseError, Reason};
use codecs::program::Program;
use std::alloc::{AllocError, Global};
use text::line::{next_token, without_remark};

/// What a scenario has set up so far.
#[derive(Drop)]
pub struct Console {
    program: Option<Program>,
    memory: Option<MemoryBuffer>,
    outlet: Option<OutletBuffer>,
}

/// What an engine is made from.
#[derive(Drop)]
pub struct EngineSetup {
    pub program: Program,
    pub settings: Settings,
    pub memory: MemoryBuffer,
    pub outlet: OutletBuffer,
}

/// What is left to do after a line.
#[derive(Drop)]
pub enum Next {
    // nothing: the line is answered
    Line,
    // the engine, if there is one, answers the command
    Engine(EngineCommand),
    // an engine is made, and the answer's line is begun
    Make(EngineSetup),
}

// Appends the words of a text, a space after each.
fn write_words(out: &mut Vec<u8>, text: &[u8]) -> Result<(), AllocError>
    ensures { OnOk result (out.new.items ≡ out.old.items ++ echoed (words_of text.now)) }
{
    let mut rest = text;
    while let Some((word, after)) = next_token(rest) {
        out.extend_from_slice(word)?;
        out.push(b' ')?;
        rest = after;
    }
    Ok(())
}

// Begins the line of an answer: the words and the arrow.
fn write_head(out: &mut Vec<u8>, text: &[u8]) -> Result<(), AllocError>
    ensures { OnOk result (out.new.items ≡ out.old.items ++ head_text text.now) }
{
    write_words(out, text)?;
    out.extend_from_slice(b"-> ")?;
    Ok(())
}

/// Answers a line that is not understood.
pub fn write_reason(out: &mut Vec<u8>, reason: Reason) -> Result<(), AllocError>
    ensures { OnOk result (out.new.items ≡ out.old.items ++ reason_line reason) }
{
    out.extend_from_slice(b"-> not understood: ")?;
    write_line(out, reason.text())
}

/// Answers a line by an engine's reply.
pub fn write_reply(out: &mut Vec<u8>, line: &[u8], reply: &str) -> Result<(), AllocError>
    ensures { OnOk result (out.new.items ≡ out.old.items ++ reply_line (text_of line.now) reply.now) }
{
    write_answer(out, text_of(line), reply)
}

// The line of an answer: the tokens, the arrow and the reply.
fn write_answer(out: &mut Vec<u8>, text: &[u8], reply: &str) -> Result<(), AllocError>
    ensures { OnOk result (out.new.items ≡ out.old.items ++ reply_line text.now reply.now) }
{
    write_head(out, text)?;
    write_line(out, reply)
}

impl Console {
    /// A scenario at its beginning: no program, nothing set up.
    pub fn new() -> Console
        ensures { result ≡ nothing_set_up }
    {
        Console {
            program: None,
            memory: None,
            outlet: None,
        }
    }

    /// Plays a line, with its newline or without, and appends what it prints, but for what is left to do.
    pub fn play_line(&mut self, line: &[u8], out: &mut Vec<u8>) -> Result<Next, AllocError>
        ensures { IfOk result (λ next. Appends out.old.items out.new.items
            (λ printed. Played self.old (text_of line.now) printed next self.new)) }
    {
        let text = text_of(line);
        match Command::parse(*out.allocator(), text) {
            Ok(Some(command)) => self.answer(text, command, out),
            Ok(None) => Ok(Next::Line),
            Err(error) => explain(out, error),
        }
    }

    // Answers a command, but for what is left to do.
    fn answer(
        &mut self,
        text: &[u8],
        command: Command,
        out: &mut Vec<u8>,
    ) -> Result<Next, AllocError>
        ensures { IfOk result (λ next. Appends out.old.items out.new.items
            (λ printed. Answered self.old text.now command printed next self.new)) }
    {
        match command {
            Command::Packed(command) => {
                write_head(out, text)?;
                packed_answers::answer(command, &mut self.program, out)?;
                Ok(Next::Line)
            }
            Command::Memory(buffer) => {
                let reply = format!(in *out.allocator(); "words {}", buffer.words())?;
                self.memory = Some(buffer);
                write_answer(out, text, reply.as_str())?;
                Ok(Next::Line)
            }
            Command::Outlet(buffer) => {
                let reply = format!(in *out.allocator(); "room {}", buffer.room())?;
                self.outlet = Some(buffer);
                write_answer(out, text, reply.as_str())?;
                Ok(Next::Line)
            }
            Command::Make(settings) => self.setup(text, settings, out),
            Command::Engine(command) => Ok(Next::Engine(command)),
        }
    }

    // An engine is to be made over the accepted program. That uses up the memory and the outlet.
    fn setup(
        &mut self,
        text: &[u8],
        settings: Settings,
        out: &mut Vec<u8>,
    ) -> Result<Next, AllocError>
        ensures { IfOk result (λ next. Appends out.old.items out.new.items
            (λ printed. IsSetUp self.old.program self.old text.now settings printed next self.new)) }
    {
        let Some(program) = self.program else {
            write_reason(out, Reason::NoProgram)?;
            return Ok(Next::Line);
        };
        let memory = memory_or_default(*out.allocator(), self.memory.take())?;
        let outlet = self.outlet.take().unwrap_or(OutletBuffer::Store);
        write_head(out, text)?;
        Ok(Next::Make(EngineSetup {
            program,
            settings,
            memory,
            outlet,
        }))
    }
}

// Says why a line gives no command.
fn explain(out: &mut Vec<u8>, error: ParseError) -> Result<Next, AllocError>
    ensures { IfOk result (λ next. Explained error out.old.items out.new.items next) }
{
    match error {
        ParseError::NotUnderstood(reason) => {
            write_reason(out, reason)?;
            Ok(Next::Line)
        }
        ParseError::NoMemory => Err(AllocError),
    }
}

// The memory that was set up, or sixteen zero words.
fn memory_or_default(heap: Global, memory: Option<MemoryBuffer>) -> Result<MemoryBuffer, AllocError>
    ensures { IfOk result (λ m. IsSetUpOrDefault memory m) }
{
    match memory {
        Some(buffer) => Ok(buffer),
        None => MemoryBuffer::sixteen_zeros(heap),
    }
}

// The line without its remark and the newline that ends it.
fn text_of(line: &[u8]) -> &[u8]
    ensures { result.now ≡ text_of line.now }
{
    without_remark(without_newline(line))
}

// The line without the newline that ends it.
fn without_newline(line: &[u8]) -> &[u8]
    ensures { result.now ≡ without_newline line.now }
{
    line.strip_suffix(b"\n").unwrap_or(line)
}

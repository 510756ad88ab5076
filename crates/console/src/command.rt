// A line as a command: one that needs no engine, or one to an engine.
ghost use Rattle.std.specs.Prelude.{◌≡◌, IfOk};
ghost use Rattle.std.specs.Option.{option_map};
ghost use Rattle.console.specs.Parsing.{settings_of, named_of, command_of, give_of, engine_of};
ghost use Rattle.console.specs.Reasons.{ParsesAs};
ghost use Rattle.console.specs.Values.{settings_value, command_value};

use crate::buffer_command::{memory_buffer, outlet_buffer};
use crate::buffers::{MemoryBuffer, OutletBuffer};
use crate::kind::Kind;
use crate::packed_command::PackedCommand;
use crate::reason::{ParseError, Reason};
use crate::words::{Words, as_name};
use model::call::Call;
use std::alloc::{AllocError, Global};

/// A command of a scenario.
#[derive(Drop)]
pub enum Command {
    // a command on programs and packed words
    Packed(PackedCommand),
    // the memory that the next make hands in
    Memory(MemoryBuffer),
    // the outlet that the next make hands in
    Outlet(OutletBuffer),
    // makes an engine
    Make(Settings),
    // a command to the engine
    Engine(EngineCommand),
}

/// How many lines a core has, and where each core starts.
#[derive(Drop)]
pub struct Settings {
    pub lines: usize,
    pub places: Vec<usize>,
}

// Numbers as places.
fn widened(heap: Global, numbers: &[u32]) -> Result<Vec<usize>, AllocError>
    ensures { IfOk result (λ v. v.items ≡ numbers.now) }
{
    numbers.iter().map(|n| *n as usize).collect(heap)
}

impl Settings {
    // The settings that the words after `make` say.
    fn parse(heap: Global, mut words: Words) -> Result<Settings, ParseError>
        ensures { ParsesAs settings_value result (settings_of words.entry) }
    {
        let lines = words.place()?;
        let numbers = words.numbers(heap)?;
        let places = widened(heap, numbers.as_slice())?;
        Ok(Settings { lines, places })
    }
}

impl Command {
    // The command of a name and the words after it.
    fn named(heap: Global, name: &str, words: Words) -> Result<Command, ParseError>
        ensures { ParsesAs command_value result (named_of name.now words.entry) }
    {
        match name {
            "memory" => Ok(Command::Memory(memory_buffer(heap, words)?)),
            "outlet" => Ok(Command::Outlet(outlet_buffer(heap, words)?)),
            "make" => Ok(Command::Make(Settings::parse(heap, words)?)),
            "program" => Ok(Command::Packed(PackedCommand::program(heap, words)?)),
            "program-bytes" => Ok(Command::Packed(PackedCommand::program_bytes(heap, words)?)),
            "list" => Ok(Command::Packed(words.end(PackedCommand::List)?)),
            "image" => Ok(Command::Packed(PackedCommand::image(heap, words)?)),
            "instruction" => Ok(Command::Packed(PackedCommand::one(
                heap,
                Kind::Instruction,
                words,
            )?)),
            "entry" => Ok(Command::Packed(PackedCommand::one(heap, Kind::Entry, words)?)),
            "sent" => Ok(Command::Packed(PackedCommand::one(heap, Kind::Sent, words)?)),
            _ => Ok(Command::Engine(EngineCommand::parse(name, words)?)),
        }
    }

    /// The command that a text says. None where the text is blank.
    pub fn parse(heap: Global, text: &[u8]) -> Result<Option<Command>, ParseError>
        ensures { ParsesAs (option_map command_value) result (command_of text.now) }
    {
        let mut words = Words::new(text);
        let Some(word) = words.next() else {
            return Ok(None);
        };
        let name = as_name(word).ok_or(Reason::UnknownCommand)?;
        Ok(Some(Command::named(heap, name, words)?))
    }
}

/// Which core is moved.
#[derive(Clone, Copy, PartialEq, Eq, Debug)]
pub enum Move {
    Step(usize),
    Turn,
}

/// A command to an engine.
#[derive(Clone, Copy, PartialEq, Eq, Debug)]
pub enum EngineCommand {
    // one call
    Call(Call),
    // up to so many moves
    Moves(Move, usize),
    // shows the entry at a place
    Record(usize),
    // copies a core's tags to a list of so many places
    Tags(usize, usize),
    // shows a core
    Core(usize),
    // shows who has the token
    Token,
}

impl EngineCommand {
    // The command of a name and the words after it.
    pub(crate) fn parse(name: &str, mut words: Words) -> Result<EngineCommand, Reason>
        ensures { result ≡ engine_of name.now words.entry }
    {
        match name {
            "step" => {
                let core = words.place()?;
                words.end(EngineCommand::Call(Call::Step(core)))
            }
            "turn" => words.end(EngineCommand::Call(Call::Turn)),
            "steps" => {
                let core = words.place()?;
                let times = words.times()?;
                words.end(EngineCommand::Moves(Move::Step(core), times))
            }
            "turns" => {
                let times = words.times()?;
                words.end(EngineCommand::Moves(Move::Turn, times))
            }
            "hold" => words.end(EngineCommand::Call(Call::Hold)),
            "give" => give(words),
            "read" => {
                let address = words.place()?;
                words.end(EngineCommand::Call(Call::Read(address)))
            }
            "take" => words.end(EngineCommand::Call(Call::Take)),
            "clear" => words.end(EngineCommand::Call(Call::Clear)),
            "record" => {
                let place = words.place()?;
                words.end(EngineCommand::Record(place))
            }
            "tags" => {
                let core = words.place()?;
                let places = words.times()?;
                words.end(EngineCommand::Tags(core, places))
            }
            "core" => {
                let core = words.place()?;
                words.end(EngineCommand::Core(core))
            }
            "token" => words.end(EngineCommand::Token),
            _ => Err(Reason::UnknownCommand),
        }
    }
}

// The command of the words after `give`.
fn give(mut words: Words) -> Result<EngineCommand, Reason>
    ensures { result ≡ give_of words.entry }
{
    match words.name() {
        Some("back") => words.end(EngineCommand::Call(Call::GiveBack)),
        _ => Err(Reason::UnknownCommand),
    }
}

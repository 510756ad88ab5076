// An engine over any memory and any outlet, and the same with the host's pass beside it.
ghost use Rattle.std.specs.Prelude.{◌≡◌, ◌<◌, ◌≤◌, is_some, length};
ghost use Rattle.model.specs.Engine.{check, new_cores, make, core_at};
ghost use Rattle.model.specs.Calls.{step, following, turn, clear, hold, read, give_back, take_oldest, record_at, Tags, holder, status};
ghost use Rattle.model.specs.Runs.{reply, played};
ghost use Rattle.cores.specs.Bounds.{WithinBounds};
ghost use Rattle.cores.specs.Shareds.{outlet_of};
ghost use Rattle.engine.specs.Engines.{held_as, given_as, host_has};

use crate::core_table::CoreTable;
use crate::pass::Pass;
use crate::settings::Settings;
use cores::record::Record;
use cores::shared::Shared;
use formats::answer::Answer;
use formats::bounds::{MOST_CORES, MOST_ENTRIES, MOST_LINES};
use formats::entry::{RecordEntry, SentEntry};
use formats::refusal::NothingWaits;
use memory::shared::Memory;
use model::call::{Call, Reply};
use model::refusal::{
    ClearRefusal, GiveBackRefusal, HoldRefusal, ReadRefusal, RecordRefusal, StepRefusal,
    TagsRefusal,
};
use model::state::{Status, Token};
use outlet::waiting::Outlet;
use std::marker::Model;

/// What its cores share, the cores, and which of them turn steps next. The host changes it only by its calls.
#[derive(Drop)]
pub struct Engine<M: Memory, O: Outlet> {
    shared: Shared<M, O>,
    cores: CoreTable,
    next: usize,
}

// Seen as the model's engine.
impl<M: Memory, O: Outlet> Model for Engine<M, O> {
    ghost use Rattle.std.specs.Prelude.{◌≤◌};
    ghost use Rattle.formats.specs.declared.bounds.TheConstants.{MOST_CORES};
    ghost use Rattle.model.specs.Engine.{Engine as ModelEngine, engine_of};

    ghost Value = { ModelEngine };

    ghost view = { λ e. engine_of e.shared e.cores e.next };

    ghost invariant = { λ e. e.next ≤ MOST_CORES };
}

// The cores of a new engine: none where the settings are refused.
fn new_cores(settings: &Settings<'_>, words: usize) -> CoreTable
    ensures { result ≡ new_cores (check settings.now words) settings.now.places }
{
    match settings.check(words) {
        Ok(()) => CoreTable::new(settings.places),
        Err(_) => CoreTable::empty(),
    }
}

// The core after a core, the first after the last.
fn following(i: usize, count: usize) -> usize
    requires { i ≤ MOST_CORES }
    ensures { result ≡ following i count }
{
    if i + 1 < count { i + 1 } else { 0 }
}

impl<M: Memory, O: Outlet> Engine<M, O> {
    /// A new engine over a memory and an outlet. From settings that their check refuses it has no core.
    pub fn make(settings: Settings<'_>, memory: M, outlet: O) -> Engine<M, O>
        ensures { result ≡ make settings.entry (M.Memory.words memory) (outlet_of O.Outlet outlet) }
    {
        let cores = new_cores(&settings, memory.len());
        let shared = Shared {
            program: *settings.program,
            capacity: settings.lines.min(MOST_LINES),
            memory,
            outlet,
            token: Token::Free,
            record: Record::new(),
        };
        Engine {
            shared,
            cores,
            next: 0,
        }
    }

    /// Moves one core. Refused where there is no such core, or the record has too few free entries.
    pub fn step(&mut self, i: usize) -> Result<Answer, StepRefusal>
        ensures after { self.new ≡ (step self.old i).engine }
        ensures answer { result ≡ (step self.old i).answer }
    {
        let me = self.cores.number(i).ok_or(StepRefusal::NoSuchCore)?;
        let core = self.cores.get_mut(i).unwrap();
        let stepped = core.step(me, &mut self.shared)?;
        if let Some(address) = stepped.wrote {
            self.cores.broadcast(i, address);
        }
        Ok(stepped.answer)
    }

    /// Moves the core whose turn it is. The next one is next, unless the turn was refused.
    pub fn turn(&mut self) -> Result<Answer, StepRefusal>
        ensures after { self.new ≡ (turn self.old).engine }
        ensures answer { result ≡ (turn self.old).answer }
    {
        let answer = self.step(self.next)?;
        self.next = following(self.next, self.cores.len());
        Ok(answer)
    }

    /// Empties the record, if the token is free.
    pub fn clear(&mut self) -> Result<(), ClearRefusal>
        ensures after { self.new ≡ (clear self.old).engine }
        ensures answer { result ≡ (clear self.old).answer }
    {
        let shared = &mut self.shared;
        match shared.token {
            Token::Free => {
                shared.record.clear();
                Ok(())
            }
            _ => Err(ClearRefusal::TokenTaken),
        }
    }

    /// Takes the token for the host and gives out a pass, if the token is free.
    pub fn hold(&mut self) -> Result<Pass, HoldRefusal>
        ensures after { self.new ≡ (hold self.old).engine }
        ensures answer { held_as result ≡ (hold self.old).answer }
    {
        let shared = &mut self.shared;
        match shared.token {
            Token::Free => {
                shared.token = Token::Host;
                Ok(Pass::issue())
            }
            _ => Err(HoldRefusal::TokenTaken),
        }
    }

    /// Shows the word at an address to the host, if the host has this engine's token.
    pub fn read(&self, _pass: &Pass, address: usize) -> Result<u32, ReadRefusal>
        ensures { result ≡ read self.now address }
    {
        let shared = &self.shared;
        match shared.token {
            Token::Host => shared
                .memory
                .read(address)
                .map_err(|_| ReadRefusal::AddressOutside),
            _ => Err(ReadRefusal::NotHeld),
        }
    }

    /// Gives the token back, if the host has this engine's. On a no the pass stays with the caller.
    pub fn give_back(&mut self, pass: Pass) -> Result<(), (GiveBackRefusal, Pass)>
        ensures after { self.new ≡ (give_back self.old).engine }
        ensures answer { given_as result ≡ (give_back self.old).answer }
    {
        let shared = &mut self.shared;
        match shared.token {
            Token::Host => {
                shared.token = Token::Free;
                pass.spend();
                Ok(())
            }
            _ => Err((GiveBackRefusal::NotHeld, pass)),
        }
    }

    /// Takes the oldest entry out of the outlet.
    pub fn take(&mut self) -> Result<SentEntry, NothingWaits>
        ensures after { self.new ≡ (take_oldest self.old).engine }
        ensures answer { result ≡ (take_oldest self.old).answer }
    {
        let shared = &mut self.shared;
        shared.outlet.take()
    }

    /// The entry of the record at a place, counted from 0.
    pub fn record(&self, place: usize) -> Result<RecordEntry, RecordRefusal>
        ensures value { result ≡ record_at self.now place }
        ensures few { length self.now.entries ≤ MOST_ENTRIES }
        ensures lines { self.now.capacity ≤ MOST_LINES }
    {
        let shared = &self.shared;
        shared.record.get(place)
    }

    /// Copies a core's tagged addresses to the first places of a list, each once, and answers their number.
    pub fn tags(&self, i: usize, list: &mut [usize]) -> Result<usize, TagsRefusal>
        ensures { Tags self.now i list.old list.new result }
    {
        self.cores.get(i).ok_or(TagsRefusal::NoSuchCore)?.tags(list)
    }

    /// Who has the token.
    pub fn token(&self) -> Token
        ensures { result ≡ holder self.now }
    {
        let shared = &self.shared;
        shared.token
    }

    /// What people see of a core, or None where there is no such core.
    pub fn status(&self, i: usize) -> Option<Status>
        ensures value { result ≡ status self.now i }
        ensures bounds { i < length self.now.cores → WithinBounds (core_at self.now i) }
        ensures few { length self.now.cores ≤ MOST_CORES }
        ensures next { self.now.next ≤ MOST_CORES }
    {
        let core = self.cores.get(i)?;
        Some(core.status())
    }
}

/// An engine and the host's pass, which is here exactly while the host has the engine's token. Its calls are the engine's, and
/// answer as those do.
pub struct Hosted<M: Memory, O: Outlet> {
    engine: Engine<M, O>,
    pass: Option<Pass>,
}

// Seen as its engine.
impl<M: Memory, O: Outlet> Model for Hosted<M, O> {
    ghost use Rattle.std.specs.Prelude.{◌≡◌, is_some};
    ghost use Rattle.model.specs.Engine.{Engine as ModelEngine};
    ghost use Rattle.engine.specs.Engines.{host_has};

    ghost Value = { ModelEngine };

    ghost view = { λ h. h.engine };

    ghost invariant = { λ h. is_some h.pass ≡ host_has h.engine.token };
}

impl<M: Memory, O: Outlet> Hosted<M, O> {
    /// A new engine, which the host does not hold.
    pub fn make(settings: Settings<'_>, memory: M, outlet: O) -> Hosted<M, O>
        ensures { result ≡ make settings.entry (M.Memory.words memory) (outlet_of O.Outlet outlet) }
    {
        Hosted {
            engine: Engine::make(settings, memory, outlet),
            pass: None,
        }
    }

    /// Makes a call.
    pub fn perform(&mut self, call: Call) -> Reply
        ensures after { self.new ≡ played self.old call }
        ensures reply { result ≡ reply self.old call }
    {
        match call {
            Call::Step(i) => Reply::Stepped(self.step(i)),
            Call::Turn => Reply::Stepped(self.turn()),
            Call::Clear => Reply::Cleared(self.clear()),
            Call::Hold => Reply::Held(self.hold()),
            Call::Read(address) => Reply::Word(self.read(address)),
            Call::GiveBack => Reply::GivenBack(self.give_back()),
            Call::Take => Reply::Taken(self.take()),
        }
    }

    /// Moves one core.
    pub fn step(&mut self, i: usize) -> Result<Answer, StepRefusal>
        ensures after { self.new ≡ (step self.old i).engine }
        ensures answer { result ≡ (step self.old i).answer }
    {
        self.engine.step(i)
    }

    /// Moves the core whose turn it is.
    pub fn turn(&mut self) -> Result<Answer, StepRefusal>
        ensures after { self.new ≡ (turn self.old).engine }
        ensures answer { result ≡ (turn self.old).answer }
    {
        self.engine.turn()
    }

    /// Takes the token for the host, if it is free. The pass stays here.
    pub fn hold(&mut self) -> Result<(), HoldRefusal>
        ensures after { self.new ≡ (hold self.old).engine }
        ensures answer { result ≡ (hold self.old).answer }
    {
        let pass = self.engine.hold()?;
        match self.pass.replace(pass) {
            None => Ok(()),
            Some(_before) => unreachable(),
        }
    }

    /// Ends the host's hold. Without a pass the host does not have the token.
    pub fn give_back(&mut self) -> Result<(), GiveBackRefusal>
        ensures after { self.new ≡ (give_back self.old).engine }
        ensures answer { result ≡ (give_back self.old).answer }
    {
        let pass = self.pass.take().ok_or(GiveBackRefusal::NotHeld)?;
        match self.engine.give_back(pass) {
            Ok(()) => Ok(()),
            Err((_refusal, _pass)) => unreachable(),
        }
    }

    /// The word at an address. Without a pass the host does not have the token.
    pub fn read(&self, address: usize) -> Result<u32, ReadRefusal>
        ensures { result ≡ read self.now address }
    {
        let pass = self.pass.as_ref().ok_or(ReadRefusal::NotHeld)?;
        self.engine.read(pass, address)
    }

    /// Takes the oldest entry out of the outlet.
    pub fn take(&mut self) -> Result<SentEntry, NothingWaits>
        ensures after { self.new ≡ (take_oldest self.old).engine }
        ensures answer { result ≡ (take_oldest self.old).answer }
    {
        self.engine.take()
    }

    /// Empties the record, if the token is free.
    pub fn clear(&mut self) -> Result<(), ClearRefusal>
        ensures after { self.new ≡ (clear self.old).engine }
        ensures answer { result ≡ (clear self.old).answer }
    {
        self.engine.clear()
    }

    /// The entry of the record at a place.
    pub fn record(&self, place: usize) -> Result<RecordEntry, RecordRefusal>
        ensures value { result ≡ record_at self.now place }
        ensures few { length self.now.entries ≤ MOST_ENTRIES }
        ensures lines { self.now.capacity ≤ MOST_LINES }
    {
        self.engine.record(place)
    }

    /// Copies a core's tagged addresses to the first places of a list.
    pub fn tags(&self, i: usize, list: &mut [usize]) -> Result<usize, TagsRefusal>
        ensures { Tags self.now i list.old list.new result }
    {
        self.engine.tags(i, list)
    }

    /// What people see of a core, or None where there is no such core.
    pub fn status(&self, i: usize) -> Option<Status>
        ensures value { result ≡ status self.now i }
        ensures bounds { i < length self.now.cores → WithinBounds (core_at self.now i) }
        ensures few { length self.now.cores ≤ MOST_CORES }
        ensures next { self.now.next ≤ MOST_CORES }
    {
        self.engine.status(i)
    }

    /// Who has the token.
    pub fn token(&self) -> Token
        ensures { result ≡ holder self.now }
    {
        self.engine.token()
    }

    /// The engine, and the pass where the host has the token.
    pub fn into_parts(self) -> (Engine<M, O>, Option<Pass>)
        ensures engine { result.0 ≡ self }
        ensures pass { is_some result.1 ≡ host_has self.token }
    {
        let Hosted { engine, pass } = self;
        (engine, pass)
    }
}

impl<M: Memory + Drop, O: Outlet + Drop> Hosted<M, O> {
    /// Gives the token back if the host has it, and lets the engine go. Answers whether the host had it.
    pub fn close(self) -> bool
        ensures { result ≡ host_has self.token }
    {
        let Hosted { mut engine, pass } = self;
        let Some(pass) = pass else {
            return false;
        };
        match engine.give_back(pass) {
            Ok(()) => true,
            Err((_refusal, _pass)) => unreachable(),
        }
    }
}

// One core as a state machine: its context and its write buffer, and a step of it over what the cores share.
ghost use Rattle.std.specs.Prelude.{◌≡◌, ◌<◌, ◌≤◌, length, true, false, MatchOption};
ghost use Rattle.formats.specs.declared.answer.Answer.TheVariants.{Running};
ghost use Rattle.formats.specs.declared.entry.Mark.TheVariants.{Discarded};
ghost use Rattle.model.specs.declared.state.State.TheVariants.{Bypass, Transaction, Commit, EarlyFlush, EarlyCommit};
ghost use Rattle.model.specs.declared.effect.Effect.TheVariants.{Nothing};
ghost use Rattle.model.specs.declared.action.Operation.TheVariants.{Loads, Stores};
ghost use Rattle.model.specs.Instructions.{past, with_reg, decided, outside};
ghost use Rattle.model.specs.Lines.{has_line, next_write, after_write};
ghost use Rattle.model.specs.Cores.{resting, opened, turned_to, performed, rolled_back, is_free};
ghost use Rattle.model.specs.Cores.{faulted, ends, in_bypass, early, continued, with_line, buffered, closes, in_transaction, in_commit};
ghost use Rattle.model.specs.Cores.{in_early_flush, direct, in_early_commit};
ghost use Rattle.model.specs.Engine.{new_core, written_at, affected, shared_after};
ghost use Rattle.model.specs.Calls.{status_of, LineTags};
ghost use Rattle.cores.specs.Bounds.{pc_most, count_most, WithinBounds};
ghost use Rattle.cores.specs.Onwards.{Onward, OnwardBy, OnwardInBlock};
ghost use Rattle.cores.specs.Steps.{written, stepped_of, Attempted};

use crate::buffer::Buffer;
use crate::instructions::{accesses, action_of, outside, pass, set};
use crate::shared::Shared;
use formats::answer::{Answer, Fault};
use formats::below::CoreNumber;
use formats::bounds::{MOST_BEGINS, MOST_ENTRIES, MOST_PERFORMED};
use formats::entry::Mark;
use formats::register::Register;
use memory::shared::Memory;
use model::action::{Action, BlockAction, Operation};
use model::context::Context;
use model::line::Line;
use model::refusal::{StepRefusal, TagsRefusal};
use model::state::{State, Status};
use outlet::waiting::Outlet;
use std::marker::Model;

/// State, context, saved context, open BEGINs, instructions performed in the block, and the write buffer. A core can be copied.
#[derive(Clone, Copy)]
pub struct Core {
    state: State,
    context: Context,
    saved: Context,
    depth: u32,
    count: u32,
    buffer: Buffer,
}

// Seen as the model's core.
impl Model for Core {
    ghost use Rattle.model.specs.Cores.{Core as ModelCore};

    ghost Value = { ModelCore };

    ghost use Rattle.cores.specs.Cores.{core_of, inside_of, Bounded};

    ghost view = { core_of };

    ghost invariant = { Bounded };

    ghost inverse = { inside_of };
}

// What stands where a list of fixed capacity has no core: a new core at instruction 0.
impl Default for Core {
    ghost use Rattle.std.specs.Prelude.{◌≡◌};
    ghost use Rattle.model.specs.Engine.{new_core};

    ghost is_default = { λ c. c ≡ new_core 0 };

    fn default() -> Core {
        Core::new(0).unwrap()
    }
}

/// What a step answers: what the core says, and the address that it wrote, if it wrote one.
#[derive(Clone, Copy)]
pub struct Stepped {
    pub answer: Answer,
    pub wrote: Option<usize>,
}

// A step that writes nothing.
fn says(answer: Answer) -> Stepped
    ensures { result ≡ record { answer = answer; wrote = None } }
{
    Stepped {
        answer,
        wrote: None,
    }
}

impl Core {
    /// A new core in BYPASS at an entry place, or None where the place is above 511.
    pub fn new(place: usize) -> Option<Core>
        ensures { MatchOption result (511 < place) (λ c. (place ≤ 511) × (c ≡ new_core place)) }
    {
        if place > 511 {
            return None;
        }
        let context = Context {
            pc: place,
            registers: [0; 8],
        };
        Some(Core {
            state: State::Bypass,
            context,
            saved: context,
            depth: 0,
            count: 0,
            buffer: Buffer::new(),
        })
    }

    /// Another core wrote the word at an address: a core in TRANSACTION with a tagged line there goes to ABORT.
    pub fn abort_on_write(&mut self, address: usize)
        ensures { self.new ≡ written_at self.old.state address self.old }
    {
        if self.state == State::Transaction && self.buffer.tagged(address) {
            self.state = State::Abort;
        }
    }

    /// What people see of the core.
    pub fn status(&self) -> Status
        ensures value { result ≡ status_of self.now }
        ensures bounds { WithinBounds self.now }
    {
        Status {
            state: self.state,
            pc: self.context.pc,
            registers: self.context.registers,
            depth: self.depth,
            count: self.count,
            used: self.buffer.len(),
        }
    }

    /// Copies the tagged addresses to the first places of a list and answers their number; refused where the list is too
    /// short, which it then leaves as it was.
    pub fn tags(&self, list: &mut [usize]) -> Result<usize, TagsRefusal>
        ensures { LineTags self.now.lines list.old list.new result }
    {
        self.buffer.tags(list)
    }

    /// One step, by the core's state and its instruction, in place. Refused where the record has not the free entries that it
    /// asks for: one, or two if another core has the token; then nothing changes.
    #[tactic(auto, unfolding(model::specs::Instructions::action_at, model::specs::Instructions::decision_at))]
    pub fn step<M: Memory, O: Outlet>(
        &mut self,
        me: CoreNumber,
        shared: &mut Shared<M, O>,
    ) -> Result<Stepped, StepRefusal>
        ensures { Attempted shared.old me.value self.old self.new shared.new result }
    {
        if !shared.has_entries(me) {
            return Err(StepRefusal::RecordFull);
        }
        let instruction = shared.program.at(self.context.pc);
        Ok(match (self.state, instruction) {
            (State::Bypass, instruction) => {
                let action = action_of(instruction, &self.context);
                self.in_bypass(action, me, shared)
            }
            (State::Transaction, instruction) => {
                let action = action_of(instruction, &self.context);
                let words = shared.memory.len();
                let decision = self.decide(action, false, words);
                self.in_transaction(decision, me, shared)
            }
            (State::Commit, _) => self.in_commit(me, shared),
            (State::Abort, _) => {
                self.roll_back();
                says(Answer::RolledBack)
            }
            (State::EarlyFlush, _) => self.in_early_flush(shared),
            (State::EarlyCommit, instruction) => {
                let action = action_of(instruction, &self.context);
                let words = shared.memory.len();
                let decision = self.decide(action, true, words);
                self.in_early_commit(decision, me, shared)
            }
            (State::Stopped, _) => says(Answer::Stopped),
        })
    }

    // What an action comes to inside the core's block, or its fault. A direct block does not restart.
    fn decide(&self, action: Action, direct: bool, words: usize) -> Result<BlockAction, Fault>
        requires onward { Onward self.now.context.pc action }
        ensures value { result ≡ decided direct words self.now.depth self.now.count action }
        ensures onward { OnwardInBlock self.now.context.pc self.now.count words result }
    {
        match action {
            _ if self.count >= MOST_PERFORMED => Err(Fault::TooLong),
            Action::Performs(operation) if outside(operation, words) => Err(Fault::AddressOutside),
            Action::Begins if self.depth >= MOST_BEGINS => Err(Fault::TooDeep),
            Action::Halts => Err(Fault::HaltInBlock),
            Action::Retries if direct => Err(Fault::RetryAfterEarly),
            Action::Performs(operation) => Ok(BlockAction::Continues(operation)),
            Action::Begins => Ok(BlockAction::Nests {
                depth: self.depth + 1,
            }),
            Action::Ends if self.depth < 2 => Ok(BlockAction::Closes),
            Action::Ends => Ok(BlockAction::Nests {
                depth: self.depth - 1,
            }),
            Action::Retries => Ok(BlockAction::Restarts),
            Action::Earlies => Ok(BlockAction::TakesToken),
        }
    }
}

// The ways in which a core changes.
impl Core {
    // The core is outside every block: no BEGIN open, nothing performed, no lines.
    fn rest(&mut self, state: State)
        requires { self.old.context.pc ≤ pc_most state }
        ensures { self.new ≡ resting state self.old.context self.old.saved }
    {
        self.state = state;
        self.depth = 0;
        self.count = 0;
        self.buffer.clear();
    }

    // The core goes into the block that its BEGIN opens.
    fn open(&mut self)
        requires { self.old.context.pc < 511 }
        ensures { self.new ≡ opened self.old }
    {
        self.state = State::Transaction;
        self.saved = self.context;
        pass(&mut self.context);
        self.depth = 1;
        self.count = 1;
        self.buffer.clear();
    }

    // The core goes back to where its block began.
    fn roll_back(&mut self)
        ensures { self.new ≡ rolled_back self.old }
    {
        self.state = State::Bypass;
        self.context = self.saved;
        self.rest(State::Bypass);
    }

    // The block has performed one more instruction.
    fn run(&mut self) -> Stepped
        requires { self.old.count < count_most self.old.state }
        ensures core { self.new ≡ performed self.old self.old.context self.old.depth self.old.lines }
        ensures stepped { result ≡ record { answer = Running; wrote = None } }
    {
        self.count += 1;
        says(Answer::Running)
    }

    // The block has performed one more instruction, and the next one is next.
    fn run_past(&mut self, depth: u32) -> Stepped
        requires count { self.old.count < count_most self.old.state }
        requires pc { self.old.context.pc < pc_most self.old.state }
        ensures core { self.new ≡ performed self.old (past self.old.context) depth self.old.lines }
        ensures stepped { result ≡ record { answer = Running; wrote = None } }
    {
        self.depth = depth;
        pass(&mut self.context);
        self.run()
    }

    // The same with another word in a register.
    fn run_with(&mut self, d: Register, word: u32) -> Stepped
        requires count { self.old.count < count_most self.old.state }
        requires pc { self.old.context.pc < pc_most self.old.state }
        ensures core { self.new ≡ performed self.old (with_reg self.old.context d word) self.old.depth self.old.lines }
        ensures stepped { result ≡ record { answer = Running; wrote = None } }
    {
        set(&mut self.context, d, word);
        self.run()
    }

    // The oldest dirty line is written to memory, and is dirty no more; answers its address.
    fn write_next<M: Memory, O: Outlet>(&mut self, shared: &mut Shared<M, O>) -> Option<usize>
        ensures core { self.new ≡ record self.old { lines = after_write self.old.lines } }
        ensures shared { shared.new ≡ affected (next_write self.old.lines) shared.old }
        ensures wrote { result ≡ written (next_write self.old.lines) }
    {
        let (address, word) = self.buffer.write_next()?;
        shared.write(address, word);
        Some(address)
    }
}

// What a step comes to.
impl Core {
    // A fault: the core finishes and stops where it is.
    fn fault<M: Memory, O: Outlet>(
        &mut self,
        me: CoreNumber,
        shared: &mut Shared<M, O>,
        mark: Mark,
        count: u32,
        fault: Fault,
    ) -> Stepped
        requires room { length shared.old.entries < MOST_ENTRIES }
        requires count { count ≤ MOST_PERFORMED }
        ensures core { self.new ≡ (faulted shared.old me.value self.old mark count fault).core }
        ensures shared { shared.new ≡ shared_after (faulted shared.old me.value self.old mark count fault) shared.old }
        ensures stepped { result ≡ stepped_of (faulted shared.old me.value self.old mark count fault) }
    {
        self.state = State::Stopped;
        self.rest(State::Stopped);
        shared.finish(me, mark, count);
        says(Answer::Faulted {
            fault,
            pc: self.context.pc,
        })
    }

    // The block ends: END is performed.
    fn end<M: Memory, O: Outlet>(&mut self, me: CoreNumber, shared: &mut Shared<M, O>) -> Stepped
        requires room { length shared.old.entries < MOST_ENTRIES }
        requires pc { self.old.context.pc < 511 }
        requires count { self.old.count < MOST_PERFORMED }
        ensures core { self.new ≡ (ends shared.old me.value self.old Nothing).core }
        ensures shared { shared.new ≡ shared_after (ends shared.old me.value self.old Nothing) shared.old }
        ensures stepped { result ≡ stepped_of (ends shared.old me.value self.old Nothing) }
    {
        let count = self.count + 1;
        self.state = State::Bypass;
        pass(&mut self.context);
        self.rest(State::Bypass);
        shared.finish(me, Mark::Completed, count);
        says(Answer::Done)
    }

    // A step in BYPASS.
    fn in_bypass<M: Memory, O: Outlet>(
        &mut self,
        action: Action,
        me: CoreNumber,
        shared: &mut Shared<M, O>,
    ) -> Stepped
        requires state { self.old.state ≡ Bypass }
        requires room { length shared.old.entries < MOST_ENTRIES }
        requires onward { Onward self.old.context.pc action }
        ensures core { self.new ≡ (in_bypass shared.old me.value self.old action).core }
        ensures shared { shared.new ≡ shared_after (in_bypass shared.old me.value self.old action) shared.old }
        ensures stepped { result ≡ stepped_of (in_bypass shared.old me.value self.old action) }
    {
        match action {
            Action::Performs(operation) if outside(operation, shared.memory.len()) => {
                self.fault(me, shared, Mark::Discarded, 0, Fault::AddressOutside)
            }
            Action::Performs(operation) if accesses(operation) && !shared.is_free() => {
                says(Answer::Waiting)
            }
            Action::Performs(operation) if shared.no_room(operation) => says(Answer::Full),
            Action::Performs(operation) => {
                let wrote = shared.operate(operation, &mut self.context);
                self.rest(State::Bypass);
                shared.finish(me, Mark::Completed, 1);
                Stepped {
                    answer: Answer::Done,
                    wrote,
                }
            }
            Action::Begins => {
                self.open();
                says(Answer::Running)
            }
            Action::Halts => {
                self.state = State::Stopped;
                pass(&mut self.context);
                self.rest(State::Stopped);
                shared.finish(me, Mark::Completed, 1);
                says(Answer::Done)
            }
            Action::Ends | Action::Retries | Action::Earlies => {
                self.fault(me, shared, Mark::Discarded, 0, Fault::NoOpenBlock)
            }
        }
    }

    // The block takes the token now and goes on to write its dirty lines, if any; its instruction is not yet performed.
    fn early<M: Memory, O: Outlet>(&mut self, me: CoreNumber, shared: &mut Shared<M, O>) -> Stepped
        requires { self.old.state ≡ Transaction }
        ensures core { self.new ≡ (early shared.old me.value self.old).core }
        ensures shared { shared.new ≡ shared_after (early shared.old me.value self.old) shared.old }
        ensures stepped { result ≡ stepped_of (early shared.old me.value self.old) }
    {
        if !shared.is_free() {
            return says(Answer::Waiting);
        }
        shared.take_token(me);
        if self.buffer.any_dirty() {
            self.state = State::EarlyFlush;
        } else {
            self.buffer.clear();
            self.state = State::EarlyCommit;
        }
        says(Answer::Early)
    }

    // A load in TRANSACTION: from the line at the address, or by a new line with the memory's word.
    fn load<M: Memory, O: Outlet>(
        &mut self,
        address: usize,
        d: Register,
        me: CoreNumber,
        shared: &mut Shared<M, O>,
    ) -> Stepped
        requires state { self.old.state ≡ Transaction }
        requires count { self.old.count < MOST_PERFORMED }
        requires pc { self.old.context.pc < 511 }
        requires inside { address < length shared.old.memory }
        ensures core { self.new ≡ (buffered shared.old me.value self.old (Loads address d)).core }
        ensures shared { shared.new ≡ shared_after (buffered shared.old me.value self.old (Loads address d)) shared.old }
        ensures stepped { result ≡ stepped_of (buffered shared.old me.value self.old (Loads address d)) }
    {
        match self.buffer.find(address) {
            Some(index) => {
                let word = self.buffer.value(index);
                self.run_with(d, word)
            }
            None if self.buffer.len() < shared.capacity => {
                let value = shared.word(address);
                self.buffer.push(Line {
                    address,
                    value,
                    tag: true,
                    dirty: false,
                });
                self.run_with(d, value)
            }
            None => self.early(me, shared),
        }
    }

    // A store in TRANSACTION: to the line at the address, or by a new line.
    fn store<M: Memory, O: Outlet>(
        &mut self,
        address: usize,
        value: u32,
        me: CoreNumber,
        shared: &mut Shared<M, O>,
    ) -> Stepped
        requires state { self.old.state ≡ Transaction }
        requires count { self.old.count < MOST_PERFORMED }
        requires pc { self.old.context.pc < 511 }
        ensures core { self.new ≡ (buffered shared.old me.value self.old (Stores address value)).core }
        ensures shared { shared.new ≡ shared_after (buffered shared.old me.value self.old (Stores address value)) shared.old }
        ensures stepped { result ≡ stepped_of (buffered shared.old me.value self.old (Stores address value)) }
    {
        match self.buffer.find(address) {
            Some(index) => {
                self.buffer.store(index, value);
                let depth = self.depth;
                self.run_past(depth)
            }
            None if self.buffer.len() < shared.capacity => {
                self.buffer.push(Line {
                    address,
                    value,
                    tag: false,
                    dirty: true,
                });
                let depth = self.depth;
                self.run_past(depth)
            }
            None => self.early(me, shared),
        }
    }

    // An operation in TRANSACTION: loads and stores go to the lines, sending waits for the token.
    fn buffer<M: Memory, O: Outlet>(
        &mut self,
        operation: Operation,
        me: CoreNumber,
        shared: &mut Shared<M, O>,
    ) -> Stepped
        requires state { self.old.state ≡ Transaction }
        requires count { self.old.count < MOST_PERFORMED }
        requires onward { OnwardBy self.old.context.pc operation }
        requires inside { outside (length shared.old.memory) operation ≡ false }
        ensures core { self.new ≡ (buffered shared.old me.value self.old operation).core }
        ensures shared { shared.new ≡ shared_after (buffered shared.old me.value self.old operation) shared.old }
        ensures stepped { result ≡ stepped_of (buffered shared.old me.value self.old operation) }
    {
        match operation {
            Operation::Sets { d, word } => self.run_with(d, word),
            Operation::Jumps { pc } => {
                self.context.pc = pc;
                self.run()
            }
            Operation::Loads { address, d } => self.load(address, d, me, shared),
            Operation::Stores { address, word } => self.store(address, word, me, shared),
            Operation::Sends(_) => self.early(me, shared),
        }
    }

    // END of the first BEGIN, when the token is free: a block with nothing to write ends, another takes the token.
    fn close<M: Memory, O: Outlet>(&mut self, me: CoreNumber, shared: &mut Shared<M, O>) -> Stepped
        requires room { length shared.old.entries < MOST_ENTRIES }
        requires count { self.old.count < MOST_PERFORMED }
        requires pc { self.old.context.pc < 511 }
        ensures core { self.new ≡ (closes shared.old me.value self.old).core }
        ensures shared { shared.new ≡ shared_after (closes shared.old me.value self.old) shared.old }
        ensures stepped { result ≡ stepped_of (closes shared.old me.value self.old) }
    {
        if !self.buffer.any_dirty() {
            return self.end(me, shared);
        }
        self.state = State::Commit;
        shared.take_token(me);
        says(Answer::Committing)
    }

    // A step in TRANSACTION.
    fn in_transaction<M: Memory, O: Outlet>(
        &mut self,
        decision: Result<BlockAction, Fault>,
        me: CoreNumber,
        shared: &mut Shared<M, O>,
    ) -> Stepped
        requires state { self.old.state ≡ Transaction }
        requires room { length shared.old.entries < MOST_ENTRIES }
        requires onward { OnwardInBlock self.old.context.pc self.old.count (length shared.old.memory) decision }
        ensures core { self.new ≡ (in_transaction shared.old me.value self.old decision).core }
        ensures shared { shared.new ≡ shared_after (in_transaction shared.old me.value self.old decision) shared.old }
        ensures stepped { result ≡ stepped_of (in_transaction shared.old me.value self.old decision) }
    {
        match decision {
            Err(_) | Ok(BlockAction::Closes) if !shared.is_free() => says(Answer::Waiting),
            Err(fault) => {
                let count = self.count;
                self.fault(me, shared, Mark::Discarded, count, fault)
            }
            Ok(BlockAction::Continues(operation)) => self.buffer(operation, me, shared),
            Ok(BlockAction::Nests { depth }) => self.run_past(depth),
            Ok(BlockAction::Closes) => self.close(me, shared),
            Ok(BlockAction::Restarts) => {
                self.roll_back();
                says(Answer::Retried)
            }
            Ok(BlockAction::TakesToken) => self.early(me, shared),
        }
    }

    // A step in COMMIT: the oldest dirty line is written; with the last one the block ends.
    fn in_commit<M: Memory, O: Outlet>(
        &mut self,
        me: CoreNumber,
        shared: &mut Shared<M, O>,
    ) -> Stepped
        requires state { self.old.state ≡ Commit }
        requires room { length shared.old.entries < MOST_ENTRIES }
        ensures core { self.new ≡ (in_commit shared.old me.value self.old).core }
        ensures shared { shared.new ≡ shared_after (in_commit shared.old me.value self.old) shared.old }
        ensures stepped { result ≡ stepped_of (in_commit shared.old me.value self.old) }
    {
        let wrote = self.write_next(shared);
        if self.buffer.any_dirty() {
            return Stepped {
                answer: Answer::Committing,
                wrote,
            };
        }
        Stepped {
            wrote,
            ..self.end(me, shared)
        }
    }

    // A step in EARLY_FLUSH: the oldest dirty line is written; with the last one the lines are gone.
    fn in_early_flush<M: Memory, O: Outlet>(&mut self, shared: &mut Shared<M, O>) -> Stepped
        requires { self.old.state ≡ EarlyFlush }
        ensures core { self.new ≡ (in_early_flush shared.old self.old).core }
        ensures shared { shared.new ≡ shared_after (in_early_flush shared.old self.old) shared.old }
        ensures stepped { result ≡ stepped_of (in_early_flush shared.old self.old) }
    {
        let wrote = self.write_next(shared);
        if !self.buffer.any_dirty() {
            self.buffer.clear();
            self.state = State::EarlyCommit;
        }
        Stepped {
            answer: Answer::Early,
            wrote,
        }
    }

    // A step in EARLY_COMMIT: loads, stores and sends are direct.
    fn in_early_commit<M: Memory, O: Outlet>(
        &mut self,
        decision: Result<BlockAction, Fault>,
        me: CoreNumber,
        shared: &mut Shared<M, O>,
    ) -> Stepped
        requires state { self.old.state ≡ EarlyCommit }
        requires room { length shared.old.entries < MOST_ENTRIES }
        requires onward { OnwardInBlock self.old.context.pc self.old.count (length shared.old.memory) decision }
        ensures core { self.new ≡ (in_early_commit shared.old me.value self.old decision).core }
        ensures shared { shared.new ≡ shared_after (in_early_commit shared.old me.value self.old decision) shared.old }
        ensures stepped { result ≡ stepped_of (in_early_commit shared.old me.value self.old decision) }
    {
        match decision {
            Err(fault) => {
                let count = self.count;
                self.fault(me, shared, Mark::Kept, count, fault)
            }
            Ok(BlockAction::Continues(operation)) if shared.no_room(operation) => {
                says(Answer::Full)
            }
            Ok(BlockAction::Continues(operation)) => {
                let wrote = shared.operate(operation, &mut self.context);
                self.count += 1;
                Stepped {
                    answer: Answer::Running,
                    wrote,
                }
            }
            Ok(BlockAction::Nests { depth }) => self.run_past(depth),
            Ok(BlockAction::Closes) => self.end(me, shared),
            Ok(BlockAction::Restarts | BlockAction::TakesToken) => {
                let depth = self.depth;
                self.run_past(depth)
            }
        }
    }
}

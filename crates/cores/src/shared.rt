// What the cores of an engine share.
ghost use Rattle.std.specs.Prelude.{◌≡◌, ◌<◌, ◌≤◌, ◌∷◌, ◌++◌, [], length, slice_index, true, false};
ghost use Rattle.formats.specs.Records.{entry};
ghost use Rattle.model.specs.declared.effect.Effect.TheVariants.{Wrote, Sent};
ghost use Rattle.model.specs.Instructions.{outside, context_after, effect_of};
ghost use Rattle.model.specs.Cores.{is_free, freed, no_room};
ghost use Rattle.model.specs.Calls.{wanted, has_entries};
ghost use Rattle.cores.specs.Onwards.{OnwardBy};
ghost use Rattle.model.specs.Engine.{affected};
ghost use Rattle.cores.specs.Steps.{written};

use crate::instructions::{pass, set};
use crate::record::Record;
use codecs::program::Program;
use formats::below::{CoreNumber, UnitCount};
use formats::bounds::{MOST_ENTRIES, MOST_PERFORMED};
use formats::entry::{Mark, RecordEntry, SentEntry};
use memory::shared::Memory;
use model::action::Operation;
use model::context::Context;
use model::state::Token;
use outlet::waiting::Outlet;
use std::marker::Model;

/// Program, lines of a core, memory, outlet, commit token and record. A step of a core changes it in place.
#[derive(Drop)]
pub struct Shared<M: Memory, O: Outlet> {
    pub program: Program,
    // how many lines a core has, at most 32
    pub capacity: usize,
    pub memory: M,
    pub outlet: O,
    pub token: Token,
    pub record: Record,
}

impl<M: Memory, O: Outlet> Model for Shared<M, O> {
    ghost use Rattle.std.specs.Prelude.{◌≤◌};
    ghost use Rattle.formats.specs.declared.bounds.TheConstants.{MOST_LINES};
    ghost use Rattle.model.specs.Cores.{Shared as ModelShared};

    ghost Value = { ModelShared };

    ghost use Rattle.cores.specs.Shareds.{shared_of};

    ghost view = { shared_of M.Memory O.Outlet };

    ghost invariant = { λ s. s.capacity ≤ MOST_LINES };
}

// How many free entries of the record a step of a core asks for: two if another core has the token.
fn wanted(token: Token, me: usize) -> usize
    ensures { result ≡ wanted token me }
{
    match token {
        Token::Core(holder) if holder != me => 2,
        _ => 1,
    }
}

// An entry of the record.
fn entry_of(me: CoreNumber, mark: Mark, count: u32) -> RecordEntry
    requires { count ≤ MOST_PERFORMED }
    ensures { result ≡ entry me.value mark count }
{
    RecordEntry {
        core: me,
        mark,
        count: UnitCount::new(count).unwrap(),
    }
}

impl<M: Memory, O: Outlet> Shared<M, O> {
    // Whether the record has the free entries that a step of a core asks for.
    pub(crate) fn has_entries(&self, me: CoreNumber) -> bool
        ensures { result ≡ has_entries self.now me.value }
    {
        self.record.len() + wanted(self.token, me.value() as usize) <= MOST_ENTRIES
    }

    // Whether nobody has the token.
    pub(crate) fn is_free(&self) -> bool
        ensures { result ≡ is_free self.now.token }
    {
        self.token == Token::Free
    }

    // The word at an address.
    pub(crate) fn word(&self, address: usize) -> u32
        requires { address < length self.now.memory }
        ensures { result ≡ slice_index self.now.memory address }
    {
        self.memory.read(address).unwrap()
    }

    // Writes the word at an address.
    pub(crate) fn write(&mut self, address: usize, word: u32)
        ensures { self.new ≡ affected (Wrote address word) self.old }
    {
        let _ = self.memory.write(address, word);
    }

    // Sends an entry.
    pub(crate) fn send(&mut self, entry: SentEntry)
        requires { 0 < self.old.outlet.room }
        ensures { self.new ≡ affected (Sent entry) self.old }
    {
        let _ = self.outlet.send(entry);
    }

    // A core takes the token.
    pub(crate) fn take_token(&mut self, me: CoreNumber)
        ensures { self.new ≡ record self.old { token = Token.Core me.value } }
    {
        self.token = Token::Core(me.value() as usize);
    }

    // A core finishes a unit: the record gets an entry, and the token is free if the core had it.
    pub(crate) fn finish(&mut self, me: CoreNumber, mark: Mark, count: u32)
        requires room { length self.old.entries < MOST_ENTRIES }
        requires count { count ≤ MOST_PERFORMED }
        ensures { let entries = self.old.entries ++ (entry me.value mark count ∷ []) in
            self.new ≡ record self.old { token = freed self.old.token me.value; entries = entries } }
    {
        self.record.push(entry_of(me, mark, count));
        if self.token == Token::Core(me.value() as usize) {
            self.token = Token::Free;
        }
    }

    // Whether an operation sends, and the outlet has no room.
    pub(crate) fn no_room(&self, operation: Operation) -> bool
        ensures { result ≡ no_room self.now operation }
    {
        matches!(operation, Operation::Sends(_)) && self.outlet.room() == 0
    }

    // Performs an operation on a context, memory and outlet, and answers the address that it wrote.
    #[inline(always)]
    pub(crate) fn operate(&mut self, operation: Operation, context: &mut Context) -> Option<usize>
        requires onward { OnwardBy context.old.pc operation }
        requires inside { outside (length self.old.memory) operation ≡ false }
        requires room { no_room self.old operation ≡ false }
        ensures context { context.new ≡ context_after operation self.old.memory context.old }
        ensures shared { self.new ≡ affected (effect_of operation) self.old }
        ensures wrote { result ≡ written (effect_of operation) }
        ensures bound { context.new.pc ≤ 511 }
    {
        match operation {
            Operation::Sets { d, word } => {
                set(context, d, word);
                None
            }
            Operation::Jumps { pc } => {
                context.pc = pc;
                None
            }
            Operation::Loads { address, d } => {
                set(context, d, self.word(address));
                None
            }
            Operation::Stores { address, word } => {
                self.write(address, word);
                pass(context);
                Some(address)
            }
            Operation::Sends(entry) => {
                self.send(entry);
                pass(context);
                None
            }
        }
    }
}

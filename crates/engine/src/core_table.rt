// The table of an engine's cores.
ghost use Rattle.std.specs.Prelude.{◌≡◌, ◌<◌, ◌≤◌, true, [], length, map, slice_get, MatchOption};
ghost use Rattle.std.specs.Option.{option_copied};
ghost use Rattle.std.specs.Slice.{IsItemAt};
ghost use Rattle.std.specs.List.{IsItemAtMut};
ghost use Rattle.std.specs.Borrow.{sem};
ghost use Rattle.model.specs.Engine.{new_core, all_below};
ghost use Rattle.engine.specs.CoreTables.{others_after};
ghost use Rattle.engine.specs.Lending.{LendsCore};

use arrayvec::ArrayVec;
use cores::state_machine::Core;
use formats::below::CoreNumber;
use formats::bounds::{MOST_CORES, MOST_INSTRUCTIONS};
use std::marker::Model;

/// At most eight cores.
#[derive(Drop)]
pub struct CoreTable {
    cores: ArrayVec<Core, MOST_CORES>,
}

// Seen as the list of its cores.
impl Model for CoreTable {
    ghost use Rattle.std.specs.Prelude.{List};
    ghost use Rattle.model.specs.Cores.{Core as ModelCore};

    ghost Value = { List ModelCore };

    ghost view = { λ t. t.cores.items };
}

impl CoreTable {
    // A table with no core.
    pub(crate) fn empty() -> CoreTable
        ensures { result ≡ [] }
    {
        CoreTable {
            cores: ArrayVec::new(),
        }
    }

    // A new core at each of some entry places.
    pub(crate) fn new(places: &[usize]) -> CoreTable
        requires few { length places.now ≤ MOST_CORES }
        requires low { all_below places.now MOST_INSTRUCTIONS ≡ true }
        ensures { result ≡ map new_core places.now }
    {
        let mut cores = ArrayVec::new();
        for place in places {
            cores.push(Core::new(*place).unwrap());
        }
        CoreTable { cores }
    }

    // How many cores there are, at most 8.
    pub(crate) fn len(&self) -> usize
        ensures value { result ≡ length self.now }
        ensures few { result ≤ MOST_CORES }
    {
        self.cores.len()
    }

    // The number of a core as an entry of the record has it, or None where there is no such core.
    pub(crate) fn number(&self, i: usize) -> Option<CoreNumber>
        ensures { MatchOption result (length self.now ≤ i) (λ n. (i < length self.now) × (n.value ≡ i)) }
    {
        if i < self.len() {
            CoreNumber::new(i as u32)
        } else {
            None
        }
    }

    // A core by its number, or None where there is no such core.
    pub(crate) fn get(&self, i: usize) -> Option<&Core>
        ensures value { option_copied result ≡ slice_get self.now i }
        ensures item { IsItemAt self.now i result }
        ensures few { length self.now ≤ MOST_CORES }
    {
        self.cores.as_slice().get(i)
    }

    // The same, for changing it: what is left behind the reference is the core then.
    pub(crate) fn get_mut(&mut self, i: usize) -> Option<&mut Core>
        ensures* writes_back { sem 𝓛 (LendsCore self.entry i result) }
        ensures item { IsItemAtMut self.old i result }
    {
        self.cores.get_mut(i)
    }

    // A core has written the word at an address: every other one in TRANSACTION with a tagged line there goes to ABORT.
    pub(crate) fn broadcast(&mut self, writer: usize, address: usize)
        ensures { self.new ≡ others_after writer address self.old }
    {
        broadcast(&mut self.cores, writer, address);
    }
}

// The same over the cores.
fn broadcast(cores: &mut [Core], writer: usize, address: usize)
    ensures { cores.new ≡ others_after writer address cores.old }
{
    for (i, core) in cores.iter_mut().enumerate() {
        if i != writer {
            core.abort_on_write(address);
        }
    }
}

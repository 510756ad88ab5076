// The record of an engine: up to 1,024 entries, oldest first.
ghost use Rattle.std.specs.Prelude.{◌≡◌, ◌<◌, ◌≤◌, [], ◌∷◌, ◌++◌, length, slice_get};
ghost use Rattle.std.specs.Option.{ok_or};
ghost use Rattle.model.specs.declared.refusal.RecordRefusal.TheVariants.{NotFilled};

use formats::bounds::MOST_ENTRIES;
use formats::entry::RecordEntry;
use model::refusal::RecordRefusal;
use std::marker::Model;

/// The record, in fixed memory. It can be copied.
#[derive(Clone, Copy)]
pub struct Record {
    places: [RecordEntry; MOST_ENTRIES],
    filled: usize,
}

// Seen as the list of its entries, and what stands in the places that are free.
impl Model for Record {
    ghost use Rattle.std.specs.Prelude.{◌≡◌, ◌≤◌, ◌++◌, length, take, drop};
    ghost use Rattle.std.proofs.Common.{arith, take-append-drop, length-take-le};
    ghost use Rattle.formats.specs.declared.bounds.TheConstants.{MOST_ENTRIES};
    ghost use Rattle.cores.specs.Records.{Entries};

    ghost Value = { Entries };

    ghost view = { λ r. record { entries = take r.filled r.places; spare = drop r.filled r.places } };

    ghost invariant = { λ r. (r.filled ≤ MOST_ENTRIES) × (length r.places ≡ MOST_ENTRIES) };

    ghost inverse = { λ e. record { places = e.entries ++ e.spare; filled = length e.entries } };

    ghost inverse_ok = { λ r h i. record {
      places = take-append-drop r.filled r.places i;
      filled = length-take-le r.filled r.places (omega (arith, h.0, h.1)) i;
    } };
}

impl Record {
    /// An empty record.
    pub fn new() -> Record
        ensures { result.entries ≡ [] }
    {
        Record {
            places: [RecordEntry::default(); MOST_ENTRIES],
            filled: 0,
        }
    }

    /// How many entries it has, at most 1,024.
    pub fn len(&self) -> usize
        ensures value { result ≡ length self.now.entries }
        ensures bound { result ≤ MOST_ENTRIES }
    {
        self.filled
    }

    /// The entry at a place, counted from 0, or the refusal where the place is not filled.
    pub fn get(&self, place: usize) -> Result<RecordEntry, RecordRefusal>
        ensures value { result ≡ ok_or (slice_get self.now.entries place) NotFilled }
        ensures few { length self.now.entries ≤ MOST_ENTRIES }
    {
        self.places[..self.filled]
            .get(place)
            .copied()
            .ok_or(RecordRefusal::NotFilled)
    }

    /// Empties the record, in the same time however many entries it has.
    pub fn clear(&mut self)
        ensures { self.new.entries ≡ [] }
    {
        self.filled = 0;
    }

    // Adds an entry.
    pub(crate) fn push(&mut self, entry: RecordEntry)
        requires { length self.old.entries < MOST_ENTRIES }
        ensures { self.new.entries ≡ self.old.entries ++ entry ∷ [] }
    {
        self.places[self.filled] = entry;
        self.filled += 1;
    }
}

// An outlet that is a store of its own, with room for 64 entries.
ghost use Rattle.std.specs.Prelude.{◌≡◌, [], length};
ghost use Rattle.outlet.specs.Backing.{nothing};
ghost use Rattle.outlet.specs.Places.{in_ring, room_in};

use crate::ring::Ring;
use crate::waiting::Outlet;
use formats::entry::SentEntry;
use formats::refusal::{NoRoom, NothingWaits};

/// How many entries the store has room for.
pub const PLACES: usize = 64;

/// A fixed array: the store allocates nothing.
#[derive(Drop)]
pub struct StoreOutlet {
    entries: [SentEntry; PLACES],
    ring: Ring,
    ghost long: { length entries ≡ 64 },
    ghost whole: { ring.places ≡ 64 },
}

impl StoreOutlet {
    /// An empty store.
    pub fn new() -> StoreOutlet
        ensures waiting { in_ring result.entries result.ring ≡ [] }
        ensures room { room_in result.ring ≡ 64 }
    {
        StoreOutlet {
            entries: [SentEntry::from([0; 5]); PLACES],
            ring: Ring::new(PLACES),
        }
    }
}

impl Outlet for StoreOutlet {
    ghost waiting = { λ o. in_ring o.entries o.ring };

    ghost room = { λ o. room_in o.ring };

    ghost backing = { λ _. nothing };

    fn send(&mut self, entry: SentEntry) -> Result<(), NoRoom> {
        let place = self.ring.claim().ok_or(NoRoom)?;
        self.entries[place] = entry;
        Ok(())
    }

    fn take(&mut self) -> Result<SentEntry, NothingWaits> {
        let place = self.ring.release().ok_or(NothingWaits)?;
        Ok(self.entries[place])
    }

    fn room(&self) -> usize {
        self.ring.room()
    }
}

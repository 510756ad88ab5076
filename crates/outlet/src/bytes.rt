// An outlet over handed-in bytes, which are a packed list of entries, five bytes to each.
ghost use Rattle.std.specs.Prelude.{◌≡◌, ◌/◌, [], length};
ghost use Rattle.outlet.specs.Backing.{backing_sent, backing_taken};
ghost use Rattle.outlet.specs.Bytes.{bytes_sent};
ghost use Rattle.outlet.specs.Places.{waiting_in, room_in, next_place, bytes_backing, Empty, Claimed, Released};
ghost use Rattle.outlet.specs.Waiting.{send_answer, sent, room_sent, take_answer, taken, room_taken};

use crate::ring::Ring;
use crate::slot::{get, put};
use crate::waiting::Outlet;
use formats::entry::SentEntry;
use formats::refusal::{NoRoom, NothingWaits};

/// Each whole five bytes are a slot for an entry; the bytes past the last slot are never touched.
#[derive(Drop)]
pub struct ByteOutlet<'a> {
    bytes: &'a mut [u8],
    ring: Ring,
    ghost whole: { ring.places ≡ length bytes.now / 5 },
}

impl<'a> ByteOutlet<'a> {
    /// The empty outlet over the bytes handed in, which it leaves as they are.
    pub fn new(bytes: &'a mut [u8]) -> ByteOutlet<'a>
        ensures holds { result.bytes.ghost_name ≡ bytes.entry.ghost_name }
        ensures value { result.bytes.now ≡ bytes.old }
        ensures waiting { waiting_in result.bytes result.ring ≡ [] }
        ensures room { room_in result.ring ≡ length bytes.old / 5 }
        ensures ring { Empty (length bytes.old / 5) result.ring }
    {
        let places = bytes.len() / 5;
        ByteOutlet {
            bytes,
            ring: Ring::new(places),
        }
    }
}

impl<'a> Outlet for ByteOutlet<'a> {
    ghost waiting = { λ o. waiting_in o.bytes o.ring };

    ghost room = { λ o. room_in o.ring };

    ghost backing = { λ o. bytes_backing o.bytes o.ring };

    // Beyond what every outlet promises: the entry's bytes go into the next slot, and all other bytes stay.
    fn send(&mut self, entry: SentEntry) -> Result<(), NoRoom>
        ensures value { result ≡ send_answer (room_in self.old.ring) }
        ensures after { waiting_in self.new.bytes self.new.ring
            ≡ sent (waiting_in self.old.bytes self.old.ring) (room_in self.old.ring) entry }
        ensures left { room_in self.new.ring ≡ room_sent (room_in self.old.ring) }
        ensures stands { bytes_backing self.new.bytes self.new.ring ≡ backing_sent (bytes_backing self.old.bytes self.old.ring) entry }
        ensures buffer { self.new.bytes.now ≡ bytes_sent self.old.bytes.now (room_in self.old.ring) (next_place self.old.ring) entry }
        ensures holds { self.new.bytes.ghost_name ≡ self.old.bytes.ghost_name }
        ensures ring { Claimed self.old.ring self.new.ring }
    {
        let place = self.ring.claim().ok_or(NoRoom)?;
        put(self.bytes, place, entry);
        Ok(())
    }

    // Beyond what every outlet promises: no byte changes.
    fn take(&mut self) -> Result<SentEntry, NothingWaits>
        ensures value { result ≡ take_answer (waiting_in self.old.bytes self.old.ring) }
        ensures after { waiting_in self.new.bytes self.new.ring ≡ taken (waiting_in self.old.bytes self.old.ring) }
        ensures left { room_in self.new.ring ≡ room_taken (waiting_in self.old.bytes self.old.ring) (room_in self.old.ring) }
        ensures stands { bytes_backing self.new.bytes self.new.ring ≡ backing_taken (bytes_backing self.old.bytes self.old.ring) }
        ensures buffer { self.new.bytes.now ≡ self.old.bytes.now }
        ensures holds { self.new.bytes.ghost_name ≡ self.old.bytes.ghost_name }
        ensures ring { Released self.old.ring self.new.ring }
    {
        let place = self.ring.release().ok_or(NothingWaits)?;
        // Through a borrow of its own: where `self.bytes` itself is handed in, nothing is known of it afterwards.
        let bytes = &mut *self.bytes;
        Ok(get(bytes, place))
    }

    fn room(&self) -> usize {
        self.ring.room()
    }
}

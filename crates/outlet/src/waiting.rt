// What an outlet is: the entries that wait in it, oldest first, and the room that is left.
ghost use Rattle.std.specs.Prelude.{◌≡◌, ℕ, List};
ghost use Rattle.formats.specs.declared.entry.SentEntry.{SentEntry as Entry};
ghost use Rattle.outlet.specs.Backing.{Backing, backing_sent, backing_taken};
ghost use Rattle.outlet.specs.Waiting.{send_answer, sent, room_sent, take_answer, taken, room_taken};

use formats::entry::SentEntry;
use formats::refusal::{NoRoom, NothingWaits};

/// The two forms are written each for itself, since they share no more than the trait and the ring of places.
/// `waiting o` is the list of the entries that wait in the outlet o, oldest first, and `room o` says how many more it takes.
/// `backing o` is what o stands on: its handed-in bytes, if it has any.
pub trait Outlet {
    ghost waiting: { Self → List Entry };

    ghost room: { Self → ℕ };

    ghost backing: { Self → Backing };

    /// Adds an entry behind the others; with no room it says no, and nothing changes.
    fn send(&mut self, entry: SentEntry) -> Result<(), NoRoom>
        ensures value { result ≡ send_answer (room self.old) }
        ensures after { waiting self.new ≡ sent (waiting self.old) (room self.old) entry }
        ensures left { room self.new ≡ room_sent (room self.old) }
        ensures stands { backing self.new ≡ backing_sent (backing self.old) entry };

    /// Removes and answers the oldest entry; where none waits it is refused, and nothing changes.
    fn take(&mut self) -> Result<SentEntry, NothingWaits>
        ensures value { result ≡ take_answer (waiting self.old) }
        ensures after { waiting self.new ≡ taken (waiting self.old) }
        ensures left { room self.new ≡ room_taken (waiting self.old) (room self.old) }
        ensures stands { backing self.new ≡ backing_taken (backing self.old) };

    /// How many more entries there is room for.
    fn room(&self) -> usize
        ensures { result ≡ room self.now };
}

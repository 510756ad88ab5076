// Handed-in bytes as a list of entries of one kind. Written once, for every kind.
ghost use Rattle.std.specs.Prelude.{◌≡◌, ◌+◌, ◌*◌, ◌/◌, ◌<◌, ◌≤◌, MatchOption};
ghost use Rattle.codecs.specs.PackedList.{entry_count, entry_at, with_entry, put_answer};

use crate::packed_entry::PackedEntry;
use crate::packed_list::code::{spell, write};
use formats::refusal::{ListRefusal, OutsideList, at_place};
use std::ops::Range;

mod code;

/// How many whole entries the bytes hold. Bytes past the last whole entry are spare.
pub fn count<E: PackedEntry>(bytes: &[u8]) -> usize
    ensures { result ≡ entry_count E.width bytes.now }
{
    bytes.len() / E::size()
}

// Where the bytes of the entry at a place stand, or None where the place is outside.
fn span<E: PackedEntry>(len: usize, place: usize) -> Option<Range<usize>>
    ensures { MatchOption result (len / E.width ≤ place)
        (λ span. (place < len / E.width) × (span.start ≡ place * E.width) × (span.end ≡ span.start + E.width) × (span.end ≤ len)) }
{
    let size = E::size();
    if place < len / size {
        let from = place * size;
        Some(from..from + size)
    } else {
        None
    }
}

/// The entry at a place, or why there is none.
pub fn get<E: PackedEntry>(bytes: &[u8], place: usize) -> Result<E, ListRefusal<E::Fault>>
    ensures { result ≡ entry_at E.width E.unpacked bytes.now place }
{
    let Some(span) = span::<E>(bytes.len(), place) else {
        return Err(ListRefusal::Outside);
    };
    let code = spell(&bytes[span]);
    Ok(at_place(E::unpack(code), place)?)
}

/// Puts an entry at a place. Every other byte stays, and all do where the place is outside.
pub fn put<E: PackedEntry + Drop>(
    bytes: &mut [u8],
    place: usize,
    entry: E,
) -> Result<(), OutsideList>
    ensures after { bytes.new ≡ with_entry E.width (E.packed entry) bytes.old place }
    ensures answer { result ≡ put_answer E.width bytes.old place }
{
    let Some(span) = span::<E>(bytes.len(), place) else {
        return Err(OutsideList);
    };
    write(&mut bytes[span], entry.pack());
    Ok(())
}

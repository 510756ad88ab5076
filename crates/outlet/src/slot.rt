// What a slot of an outlet over bytes holds: the five bytes of one entry, in its packed form.
// A slot's place is found without a division.
ghost use Rattle.std.specs.Prelude.{◌≡◌, ◌/◌, ◌<◌, length};
ghost use Rattle.formats.specs.Sents.{sent_bytes};
ghost use Rattle.codecs.specs.PackedList.{with_entry};
ghost use Rattle.outlet.specs.Bytes.{entry_in};

use formats::entry::SentEntry;

// The entry in a slot.
pub(crate) fn get(bytes: &[u8], slot: usize) -> SentEntry
    requires { slot < length bytes.now / 5 }
    ensures { result ≡ entry_in bytes.now slot }
{
    let five = bytes[5 * slot..].first_chunk::<5>().unwrap();
    SentEntry::from(*five)
}

// Puts an entry into a slot.
pub(crate) fn put(bytes: &mut [u8], slot: usize, entry: SentEntry)
    requires { slot < length bytes.old / 5 }
    ensures { bytes.new ≡ with_entry 5 (sent_bytes entry) bytes.old slot }
{
    let at = 5 * slot;
    bytes[at..at + 5].copy_from_slice(&<[u8; 5]>::from(entry));
}

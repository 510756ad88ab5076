// The packed list: places inside and outside, spare bytes, and what a write leaves.
use codecs::packed_entry::PackedEntry;
use codecs::packed_list::{count, get, put};
use formats::entry::{RecordEntry, SentEntry};
use formats::instruction::Instruction;
use formats::refusal::{EntryFault, ListRefusal, Placed};

#[test]
fn whole_entries_are_counted_and_the_rest_is_spare(rt: HostRuntime) {
    assert_eq!(rt; count::<Instruction>(&[]), 0);
    assert_eq!(rt; count::<Instruction>(&[0; 3]), 0);
    assert_eq!(rt; count::<Instruction>(&[0; 4]), 1);
    assert_eq!(rt; count::<SentEntry>(&[0; 9]), 1);
    assert_eq!(rt; count::<SentEntry>(&[0; 10]), 2);
}

#[test]
fn a_place_outside_is_refused_before_its_bytes(rt: HostRuntime) {
    let bytes = [0x18, 0, 0, 0, 0xB0, 0, 0x10, 0, 0xFF];
    assert!(rt;
        get::<RecordEntry>(&bytes, 0)
            == Err(ListRefusal::Entry(Placed {
                fault: EntryFault::OutOfRange,
                place: 0,
            }))
    );
    assert!(rt; get::<RecordEntry>(&bytes, 1).is_ok());
    assert!(rt; get::<RecordEntry>(&bytes, 2) == Err(ListRefusal::Outside));
    assert!(rt; get::<RecordEntry>(&bytes, 18446744073709551615) == Err(ListRefusal::Outside));
    assert!(rt; get::<RecordEntry>(&[], 0) == Err(ListRefusal::Outside));
}

#[test]
fn a_write_leaves_every_other_byte(rt: HostRuntime) {
    let mut bytes = [1u8, 2, 3, 4, 5, 6, 7, 8, 9, 10, 11, 12];
    let Ok(entry) = SentEntry::unpack(0xC801020304);
    assert!(rt; put(&mut bytes, 1, entry).is_ok());
    assert!(rt; bytes == [1, 2, 3, 4, 5, 0xC8, 1, 2, 3, 4, 11, 12]);
    assert!(rt; put(&mut bytes, 2, entry).is_err());
    assert!(rt; bytes == [1, 2, 3, 4, 5, 0xC8, 1, 2, 3, 4, 11, 12]);
    assert!(rt; get::<SentEntry>(&bytes, 1) == Ok(entry));
}

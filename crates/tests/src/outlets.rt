// The outlets at their edges.
use codecs::packed_entry::PackedEntry;
use formats::entry::SentEntry;
use formats::refusal::{NoRoom, NothingWaits};
use outlet::bytes::ByteOutlet;
use outlet::store::StoreOutlet;
use outlet::waiting::Outlet;

// The entry of a number of 40 bits: two hexadecimal digits for the channel, then eight for the word.
fn entry(code: u64) -> SentEntry {
    let Ok(entry) = SentEntry::unpack(code);
    entry
}

#[test]
fn the_store_has_room_for_64_and_wraps_around(rt: HostRuntime) {
    let mut outlet = StoreOutlet::new();
    assert_eq!(rt; outlet.take(), Err(NothingWaits));
    for word in 0..64u64 {
        assert_eq!(rt; outlet.send(entry(0xFF00000000 + word)), Ok(()));
    }
    assert_eq!(rt; outlet.room(), 0);
    assert_eq!(rt; outlet.send(entry(64)), Err(NoRoom));
    assert_eq!(rt; outlet.take(), Ok(entry(0xFF00000000)));
    assert_eq!(rt; outlet.send(entry(0xFF00000040)), Ok(()));
    for word in 1..65u64 {
        assert_eq!(rt; outlet.take(), Ok(entry(0xFF00000000 + word)));
    }
    assert_eq!(rt; outlet.take(), Err(NothingWaits));
    assert_eq!(rt; outlet.room(), 64);
}

#[test]
fn four_bytes_hold_no_entry(rt: HostRuntime) {
    let mut bytes = [7; 4];
    {
        let mut outlet = ByteOutlet::new(&mut bytes);
        assert_eq!(rt; outlet.room(), 0);
        assert_eq!(rt; outlet.send(entry(0x0100000002)), Err(NoRoom));
        assert_eq!(rt; outlet.take(), Err(NothingWaits));
    }
    assert_eq!(rt; bytes, [7; 4]);
}

#[test]
fn bytes_hold_whole_entries_and_wrap_around(rt: HostRuntime) {
    let mut bytes = [9; 11];
    {
        let mut outlet = ByteOutlet::new(&mut bytes);
        assert_eq!(rt; outlet.room(), 2);
        assert_eq!(rt; outlet.send(entry(0x0102030405)), Ok(()));
        assert_eq!(rt; outlet.send(entry(0xFFFFFFFFFF)), Ok(()));
        assert_eq!(rt; outlet.send(entry(0)), Err(NoRoom));
        assert_eq!(rt; outlet.take(), Ok(entry(0x0102030405)));
        assert_eq!(rt; outlet.send(entry(0x060708090A)), Ok(()));
        assert_eq!(rt; outlet.take(), Ok(entry(0xFFFFFFFFFF)));
        assert_eq!(rt; outlet.room(), 1);
    }
    assert_eq!(rt; bytes, [6, 7, 8, 9, 10, 255, 255, 255, 255, 255, 9]);
}

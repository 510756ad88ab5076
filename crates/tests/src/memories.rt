// The memories at their edges.
use formats::refusal::OutsideMemory;
use memory::bytes::ByteMemory;
use memory::shared::Memory;
use memory::words::WordMemory;

#[test]
fn an_empty_memory_has_no_address(rt: HostRuntime) {
    let mut none = [0u32; 0];
    let mut memory = WordMemory::new(&mut none);
    assert_eq!(rt; memory.len(), 0);
    assert_eq!(rt; memory.read(0), Err(OutsideMemory));
    assert_eq!(rt; memory.write(0, 1), Err(OutsideMemory));
}

#[test]
fn a_word_is_read_where_it_was_written(rt: HostRuntime) {
    let mut words = [5, 6, 7];
    {
        let mut memory = WordMemory::new(&mut words);
        assert_eq!(rt; memory.len(), 3);
        assert_eq!(rt; memory.write(2, u32::MAX), Ok(()));
        assert_eq!(rt; memory.write(3, 1), Err(OutsideMemory));
        assert_eq!(rt; memory.read(2), Ok(u32::MAX));
        assert_eq!(rt; memory.read(0), Ok(5));
        assert_eq!(rt; memory.read(4_295_229_440), Err(OutsideMemory));
    }
    assert_eq!(rt; words, [5, 6, u32::MAX]);
}

#[test]
fn bytes_hold_whole_words_most_significant_first(rt: HostRuntime) {
    let mut bytes = [1, 2, 3, 4, 5, 6, 7, 8, 9, 10, 11];
    {
        let mut memory = ByteMemory::new(&mut bytes);
        assert_eq!(rt; memory.len(), 2);
        assert_eq!(rt; memory.read(0), Ok(0x01020304));
        assert_eq!(rt; memory.write(1, 0xA0B0C0D0), Ok(()));
        assert_eq!(rt; memory.write(2, 0), Err(OutsideMemory));
        assert_eq!(rt; memory.read(1), Ok(0xA0B0C0D0));
    }
    assert_eq!(rt; bytes, [1, 2, 3, 4, 0xA0, 0xB0, 0xC0, 0xD0, 9, 10, 11]);
}

#[test]
fn three_bytes_hold_no_word(rt: HostRuntime) {
    let mut bytes = [1, 2, 3];
    let memory = ByteMemory::new(&mut bytes);
    assert_eq!(rt; memory.len(), 0);
    assert_eq!(rt; memory.read(0), Err(OutsideMemory));
}

#[test]
fn words_past_the_largest_memory_are_spare(rt: HostRuntime) {
    let mut words = [9; 65_537];
    {
        let mut memory = WordMemory::new(&mut words);
        assert_eq!(rt; memory.len(), 65_536);
        assert_eq!(rt; memory.write(65_536, 1), Err(OutsideMemory));
        assert_eq!(rt; memory.write(65_535, 1), Ok(()));
    }
    assert_eq!(rt; words[65_535], 1);
    assert_eq!(rt; words[65_536], 9);
}

// Instructions, record entries and outlet entries, packed and unpacked at the edges of their fields.
use codecs::packed_entry::PackedEntry;
use formats::below::{Below, Channel, CoreNumber, Immediate, UnitCount};
use formats::entry::{Mark, RecordEntry, SentEntry};
use formats::instruction::Instruction;
use formats::refusal::{EntryFault, InstructionFault};
use formats::register::Register;
use std::test::Fail;

#[test]
fn a_number_fits_its_field_up_to_the_limit(rt: HostRuntime) {
    assert!(rt; Below::<8>::new(7).is_some());
    assert!(rt; Below::<8>::new(8).is_none());
    assert!(rt; Immediate::new(262143).is_some());
    assert!(rt; Immediate::new(262144).is_none());
    assert!(rt; UnitCount::new(4096).is_some());
    assert!(rt; UnitCount::new(4097).is_none());
    assert!(rt; Channel::new(255).is_some());
    assert!(rt; Channel::new(256).is_none());
}

// Each word unpacks, and what it unpacks to packs to the word again.
#[test]
fn every_opcode_comes_back_with_its_largest_fields(rt: HostRuntime) -> Result<(), Fail> {
    let words: [u64; 15] = [
        0x00000000, 0x0F03FFFF, 0x17FC0000, 0x1FFC0000, 0x27FC0000, 0x2FE3FFFF, 0x30FFFFFF,
        0x3803FFFF, 0x40E3FFFF, 0x48FFFFFF, 0x50000000, 0x58000000, 0x60000000, 0x68000000,
        0x70E000FF,
    ];
    for word in words {
        let Ok(instruction) = Instruction::unpack(word) else {
            return Err(Fail::new("an instruction does not unpack"));
        };
        assert_eq!(rt; instruction.pack(), word);
    }
    Ok(())
}

#[test]
fn an_unknown_opcode_is_refused_before_the_fields(rt: HostRuntime) {
    assert!(rt; Instruction::unpack(0x78000000) == Err(InstructionFault::UnknownOpcode));
    assert!(rt; Instruction::unpack(0xFFFFFFFF) == Err(InstructionFault::UnknownOpcode));
    assert!(rt; Instruction::unpack(0x50000001) == Err(InstructionFault::BadField));
    assert!(rt; Instruction::unpack(0x09200007) == Err(InstructionFault::BadField));
    assert!(rt; Instruction::unpack(0x70200100) == Err(InstructionFault::BadField));
}

#[test]
fn only_the_lowest_four_bytes_count(rt: HostRuntime) -> Result<(), Fail> {
    let Some(n) = Immediate::new(7) else {
        return Err(Fail::new("7 does not fit"));
    };
    assert!(rt; Instruction::unpack(0xFF_0900_0007) == Ok(Instruction::Set { d: Register::R1, n }));
    Ok(())
}

#[test]
fn a_record_entry_at_its_limits(rt: HostRuntime) -> Result<(), Fail> {
    let Some(core) = CoreNumber::new(5) else {
        return Err(Fail::new("5 does not fit"));
    };
    let Some(count) = UnitCount::new(4096) else {
        return Err(Fail::new("4096 does not fit"));
    };
    let entry = RecordEntry {
        core,
        mark: Mark::Kept,
        count,
    };
    assert_eq!(rt; entry.pack(), 0xB0001000);
    assert!(rt; RecordEntry::unpack(0xB0001000) == Ok(entry));
    assert!(rt; RecordEntry::unpack(0xB0001001) == Err(EntryFault::OutOfRange));
    assert!(rt; RecordEntry::unpack(0x18000000) == Err(EntryFault::OutOfRange));
    assert!(rt; RecordEntry::unpack(0x00010000) == Err(EntryFault::OutOfRange));
    assert!(rt; RecordEntry::unpack(0x04000000) == Err(EntryFault::OutOfRange));
    assert!(rt; RecordEntry::unpack(0xF0001000).is_ok());
    Ok(())
}

#[test]
fn an_outlet_entry_is_its_channel_and_its_word(rt: HostRuntime) -> Result<(), Fail> {
    let Some(channel) = Channel::new(200) else {
        return Err(Fail::new("200 does not fit"));
    };
    let entry = SentEntry {
        channel,
        word: 4294967295,
    };
    assert_eq!(rt; entry.pack(), 0xC8FFFFFFFF);
    let Ok(back) = SentEntry::unpack(0xC8FFFFFFFF);
    assert!(rt; back == entry);
    let Ok(zero) = SentEntry::unpack(0);
    assert_eq!(rt; zero.pack(), 0);
    Ok(())
}

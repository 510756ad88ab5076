// Reading programs: byte counts, jump targets, the last instruction, and the place of the first refusal.
use codecs::program::Program;
use formats::refusal::{InstructionFault, ProgramFault, ProgramRefusal};
use std::test::Fail;

// What reading refuses the bytes for, or None where it accepts them.
fn refusal(bytes: &[u8]) -> Option<(ProgramFault, usize)> {
    match Program::read(bytes) {
        Ok(_) => None,
        Err(ProgramRefusal { fault, place }) => Some((fault, place)),
    }
}

#[test]
fn the_byte_count_is_a_multiple_of_four_up_to_2048(rt: HostRuntime) {
    assert!(rt; refusal(&[]) == Some((ProgramFault::ByteCount, 0)));
    assert!(rt; refusal(&[0; 3]) == Some((ProgramFault::ByteCount, 0)));
    assert!(rt; refusal(&[0; 4]) == None);
    assert!(rt; refusal(&[0; 5]) == Some((ProgramFault::ByteCount, 0)));
    assert!(rt; refusal(&[0; 2048]) == None);
    assert!(rt; refusal(&[0; 2052]) == Some((ProgramFault::ByteCount, 0)));
}

#[test]
fn the_first_instruction_that_fails_decides(rt: HostRuntime) {
    let unknown = ProgramFault::Instruction(InstructionFault::UnknownOpcode);
    let field = ProgramFault::Instruction(InstructionFault::BadField);
    assert!(rt; refusal(&[0x38, 0, 0, 0]) == None);
    assert!(rt; refusal(&[0x38, 0, 0, 1]) == Some((ProgramFault::TargetOutside, 0)));
    assert!(rt; refusal(&[0x09, 0, 0, 7]) == Some((ProgramFault::NoEnd, 0)));
    assert!(rt; refusal(&[0x38, 0, 0, 1, 0x09, 0, 0, 7]) == Some((ProgramFault::NoEnd, 1)));
    assert!(rt; refusal(&[0x38, 0, 0, 2, 0x78, 0, 0, 0]) == Some((ProgramFault::TargetOutside, 0)));
    assert!(rt; refusal(&[0, 0, 0, 0, 0x78, 0, 0, 0, 0x50, 0, 0, 1]) == Some((unknown, 1)));
    assert!(rt; refusal(&[0, 0, 0, 0, 0, 0, 0, 0, 0x50, 0, 0, 1]) == Some((field, 2)));
}

#[test]
fn an_accepted_program_shows_its_instructions(rt: HostRuntime) -> Result<(), Fail> {
    let Ok(program) = Program::read(&[0, 0, 0, 0, 0x38, 0, 0, 1]) else {
        return Err(Fail::new("not accepted"));
    };
    assert_eq!(rt; program.len(), 2);
    assert!(rt; program.get(0).is_some());
    assert!(rt; program.get(1).is_some());
    assert!(rt; program.get(2).is_none());
    assert!(rt; program.get(18446744073709551615).is_none());
    Ok(())
}

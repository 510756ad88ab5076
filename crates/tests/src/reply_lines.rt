// The lines of a list and of an image: none, spare bytes, and a refused entry among others.
use codecs::program::Program;
use console::kind::Kind;
use console::packed_answers::answer;
use console::packed_command::PackedCommand;
use std::alloc::{AllocError, Global};
use std::test::Fail;

// What is printed for a command.
fn printed(
    heap: Global,
    command: PackedCommand,
    program: &mut Option<Program>,
) -> Result<Vec<u8>, AllocError> {
    let mut out = Vec::new(heap);
    answer(command, program, &mut out)?;
    Ok(out)
}

// What is printed for an image of the bytes.
fn image(heap: Global, kind: Kind, bytes: &[u8]) -> Result<Vec<u8>, AllocError> {
    let mut program = None;
    let command = PackedCommand::Image(kind, Vec::from_slice(heap, bytes)?);
    printed(heap, command, &mut program)
}

#[test]
fn a_list_wants_a_program(rt: HostRuntime) -> Result<(), Fail> {
    let heap = rt.alloc();
    let mut program = None;
    let lines = printed(heap, PackedCommand::List, &mut program)?;
    assert_eq!(rt; lines.as_slice(), &b"no program\n"[..]);
    let bytes = Vec::from_slice(heap, &[0x09, 0, 0, 7, 0x38, 0, 0, 0])?;
    let lines = printed(heap, PackedCommand::Program(bytes), &mut program)?;
    assert_eq!(rt; lines.as_slice(), &b"accepted 2\n"[..]);
    let bytes = Vec::from_slice(heap, &[0, 0, 0])?;
    let lines = printed(heap, PackedCommand::Program(bytes), &mut program)?;
    assert_eq!(rt; lines.as_slice(), &b"refused 1 at 0\n"[..]);
    let lines = printed(heap, PackedCommand::List, &mut program)?;
    assert_eq!(rt;
        lines.as_slice(),
        &b"instructions 2\n  0  SET R1 7\n  1  JUMP 0\n"[..]
    );
    Ok(())
}

#[test]
fn an_image_may_have_no_entry(rt: HostRuntime) -> Result<(), Fail> {
    let heap = rt.alloc();
    let lines = image(heap, Kind::Entry, &[])?;
    assert_eq!(rt; lines.as_slice(), &b"entries 0 spare 0\n"[..]);
    let lines = image(heap, Kind::Sent, &[200, 0, 0, 0])?;
    assert_eq!(rt; lines.as_slice(), &b"entries 0 spare 4\n"[..]);
    Ok(())
}

#[test]
fn a_refused_entry_stands_among_the_others(rt: HostRuntime) -> Result<(), Fail> {
    let heap = rt.alloc();
    let lines = image(heap, Kind::Entry, &[0xB0, 0, 0x10, 0, 0x18, 0, 0, 0, 0xFF])?;
    assert_eq!(rt;
        lines.as_slice(),
        &b"entries 2 spare 1\n  0: core 5 mark 2 count 4096 = 0xB0001000\n  1: refused 18\n"[..]
    );
    let lines = image(heap, Kind::Instruction, &[0x78, 0, 0, 0, 0, 0, 0, 0])?;
    assert_eq!(rt;
        lines.as_slice(),
        &b"entries 2 spare 0\n  0: refused 2 at 0\n  1: HALT = 0x00000000\n"[..]
    );
    Ok(())
}

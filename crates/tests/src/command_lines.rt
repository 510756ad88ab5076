// Lines as commands, at the edges.
use console::command::{Command, EngineCommand, Move};
use console::kind::Kind;
use console::packed_command::PackedCommand;
use console::reason::{ParseError, Reason};
use model::call::Call;
use std::alloc::Global;
use std::test::Fail;

// Why a line is not understood, if it is not.
fn reason_of(heap: Global, text: &[u8]) -> Option<Reason> {
    match Command::parse(heap, text) {
        Err(ParseError::NotUnderstood(reason)) => Some(reason),
        _ => None,
    }
}

// The command to an engine that a line says, if it says one.
fn engine(heap: Global, text: &[u8]) -> Option<EngineCommand> {
    match Command::parse(heap, text) {
        Ok(Some(Command::Engine(command))) => Some(command),
        _ => None,
    }
}

#[test]
fn a_blank_line_is_no_command(rt: HostRuntime) -> Result<(), Fail> {
    let heap = rt.alloc();
    assert!(rt; Command::parse(heap, b"")?.is_none());
    assert!(rt; Command::parse(heap, b" \t\r")?.is_none());
    Ok(())
}

#[test]
fn the_first_word_that_does_not_fit_decides(rt: HostRuntime) {
    let heap = rt.alloc();
    assert_eq!(rt; reason_of(heap, b"Step 0"), Some(Reason::UnknownCommand));
    assert_eq!(rt; reason_of(heap, b"steps x"), Some(Reason::NoNumber));
    assert_eq!(rt; reason_of(heap, b"steps 1"), Some(Reason::MissingWord));
    assert_eq!(rt; reason_of(heap, b"turn 1"), Some(Reason::ExtraWord));
    assert_eq!(rt;
        reason_of(heap, b"step 4294967296"),
        Some(Reason::NumberTooLarge)
    );
    assert_eq!(rt; reason_of(heap, b"image tag x"), Some(Reason::UnknownKind));
    assert_eq!(rt; reason_of(heap, b"memory"), Some(Reason::UnknownCommand));
}

#[test]
fn times_end_at_65_536(rt: HostRuntime) -> Result<(), Fail> {
    let heap = rt.alloc();
    let Some(EngineCommand::Moves(Move::Turn, times)) = engine(heap, b"turns 65536") else {
        assert!(rt; false);
        return Ok(());
    };
    assert_eq!(rt; times, 65_536);
    assert_eq!(rt;
        reason_of(heap, b"turns 65537"),
        Some(Reason::NumberTooLarge)
    );
    Ok(())
}

#[test]
fn a_sent_entry_has_five_bytes(rt: HostRuntime) -> Result<(), Fail> {
    let heap = rt.alloc();
    let Some(Command::Packed(PackedCommand::One(Kind::Sent, bytes))) = Command::parse(
        heap,
        b"sent C800000001",
    )?
    else {
        assert!(rt; false);
        return Ok(());
    };
    assert_eq!(rt; bytes.as_slice(), &[0xC8, 0, 0, 0, 1][..]);
    assert_eq!(rt; reason_of(heap, b"sent C8 00"), Some(Reason::NotFiveBytes));
    assert_eq!(rt;
        reason_of(heap, b"sent C80000000100"),
        Some(Reason::NotFiveBytes)
    );
    Ok(())
}

#[test]
fn give_wants_back(rt: HostRuntime) -> Result<(), Fail> {
    let heap = rt.alloc();
    let Some(EngineCommand::Call(Call::GiveBack)) = engine(heap, b"give back") else {
        assert!(rt; false);
        return Ok(());
    };
    assert_eq!(rt; reason_of(heap, b"give"), Some(Reason::UnknownCommand));
    assert_eq!(rt; reason_of(heap, b"give up"), Some(Reason::UnknownCommand));
    assert_eq!(rt; reason_of(heap, b"give back now"), Some(Reason::ExtraWord));
    Ok(())
}

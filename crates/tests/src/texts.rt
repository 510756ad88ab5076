// Tests at the edges.
use console::reason::Reason;
use formats::below::Immediate;
use formats::instruction::Instruction;
use formats::refusal::{InstructionFault, Placed};
use formats::register::Register;
use std::test::Fail;
use text::bytes::read_bytes;
use text::hexadecimal::Hex;
use text::line::{next_token, without_remark};
use text::number::{NumberFault, read_number};
use text::refused::RefusedAt;
use text::show::Shown;

#[test]
fn numbers_end_at_the_largest_word(rt: HostRuntime) {
    assert_eq!(rt; read_number(b"4294967295"), Ok(4294967295));
    assert_eq!(rt; read_number(b"4294967296"), Err(NumberFault::TooLarge));
    assert_eq!(rt; read_number(b"0xFFFFffff"), Ok(4294967295));
    assert_eq!(rt; read_number(b"0x100000000"), Err(NumberFault::TooLarge));
    assert_eq!(rt; read_number(b"000000000000000000007"), Ok(7));
}

#[test]
fn digits_come_before_size(rt: HostRuntime) {
    assert_eq!(rt; read_number(b"99999999999x"), Err(NumberFault::NoNumber));
    assert_eq!(rt; read_number(b"0x1G"), Err(NumberFault::NoNumber));
    assert_eq!(rt; read_number(b"0x"), Err(NumberFault::NoNumber));
    assert_eq!(rt; read_number(b"0X1"), Err(NumberFault::NoNumber));
    assert_eq!(rt; read_number(b""), Err(NumberFault::NoNumber));
}

#[test]
fn tokens_stand_between_blanks(rt: HostRuntime) -> Result<(), Fail> {
    assert_eq!(rt; without_remark(b"list # all of it # now"), &b"list "[..]);
    let (token, rest) = next_token(b" \tentry\r 7").ok_or("no token")?;
    assert_eq!(rt; token, &b"entry"[..]);
    let (token, rest) = next_token(rest).ok_or("no second token")?;
    assert_eq!(rt; token, &b"7"[..]);
    assert!(rt; next_token(rest).is_none());
    assert!(rt; next_token(b" \t\r").is_none());
    Ok(())
}

#[test]
fn bytes_are_pairs(rt: HostRuntime) -> Result<(), Fail> {
    let heap = rt.alloc();
    let two = read_bytes(heap, b"00fF")?.ok_or("no bytes")?;
    assert_eq!(rt; two.as_slice(), &[0, 255][..]);
    let none = read_bytes(heap, b"-")?.ok_or("no bytes")?;
    assert!(rt; none.is_empty());
    assert!(rt; read_bytes(heap, b"0")?.is_none());
    assert!(rt; read_bytes(heap, b"0g")?.is_none());
    assert!(rt; read_bytes(heap, b"--")?.is_none());
    assert!(rt; read_bytes(heap, b"ab0g")?.is_none());
    assert!(rt; read_bytes(heap, b"zzzz")?.is_none());
    Ok(())
}

#[test]
fn reasons_have_their_words(rt: HostRuntime) -> Result<(), Fail> {
    let heap = rt.alloc();
    assert_eq!(rt; Reason::UnknownCommand.text(), "unknown command");
    assert_eq!(rt; Reason::NotFiveBytes.text(), "not five bytes");
    assert_eq!(rt;
        format!(in heap; "{}", Reason::NoEngine)?.as_str(),
        Reason::NoEngine.text()
    );
    Ok(())
}

#[test]
fn texts_are_the_documented_ones(rt: HostRuntime) -> Result<(), Fail> {
    let heap = rt.alloc();
    let store = Instruction::Store {
        a: Register::R0,
        b: Register::R7,
        n: Immediate::new(262143).ok_or(NumberFault::TooLarge)?,
    };
    assert_eq!(rt;
        format!(in heap; "{}", Shown(store))?.as_str(),
        "STORE R0 R7 262143"
    );
    assert_eq!(rt;
        format!(in heap; "{}", Hex::<4>(0xB0001000))?.as_str(),
        "B0001000"
    );
    assert_eq!(rt;
        format!(in heap; "{}", Hex::<5>(0xC8FFFFFFFF))?.as_str(),
        "C8FFFFFFFF"
    );
    let refused = RefusedAt(Placed {
        fault: InstructionFault::BadField,
        place: 511,
    });
    assert_eq!(rt; format!(in heap; "{refused}")?.as_str(), "refused 3 at 511");
    Ok(())
}

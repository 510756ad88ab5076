// What a core answers, and where it then is.
use codecs::program::Program;
use cores::record::Record;
use cores::shared::Shared;
use cores::state_machine::Core;
use formats::answer::{Answer, Fault};
use formats::below::CoreNumber;
use formats::entry::Mark;
use memory::shared::Memory;
use memory::words::WordMemory;
use model::refusal::TagsRefusal;
use model::state::{State, Token};
use outlet::store::StoreOutlet;
use std::test::Fail;

// BEGIN; LOAD d 1; STORE b 1 n 1; END; HALT
const COPY: [u8; 20] = [
    0x50, 0, 0, 0, 0x29, 0, 0, 0, 0x30, 4, 0, 1, 0x58, 0, 0, 0, 0, 0, 0, 0,
];

// BEGIN; JUMP 0
const NEST: [u8; 8] = [0x50, 0, 0, 0, 0x38, 0, 0, 0];

// What a test expects and does not find.
#[derive(Clone, Copy, Debug)]
enum Missing {
    Number,
    Core,
}

// A program and a token on some words, with four lines, an empty outlet and an empty record.
fn shared(
    program: Program,
    token: Token,
    words: &mut [u32],
) -> Shared<WordMemory<'_>, StoreOutlet> {
    Shared {
        program,
        capacity: 4,
        memory: WordMemory::new(words),
        outlet: StoreOutlet::new(),
        token,
        record: Record::new(),
    }
}

#[test]
fn a_block_writes_its_line_and_ends(rt: HostRuntime) -> Result<(), Fail> {
    let me = CoreNumber::new(2).ok_or(Missing::Number)?;
    let mut core = Core::new(0).ok_or(Missing::Core)?;
    let mut words = [7, 0];
    let mut shared = shared(Program::read(&COPY)?, Token::Free, &mut words);
    for _ in 0..3 {
        assert_eq!(rt; core.step(me, &mut shared)?.answer, Answer::Running);
    }
    let taken = core.step(me, &mut shared)?;
    assert_eq!(rt; taken.answer, Answer::Committing);
    assert_eq!(rt; taken.wrote, None);
    assert_eq!(rt; shared.token, Token::Core(2));
    assert_eq!(rt; shared.memory.read(1), Ok(0));
    let ended = core.step(me, &mut shared)?;
    assert_eq!(rt; ended.answer, Answer::Done);
    assert_eq!(rt; ended.wrote, Some(1));
    assert_eq!(rt; shared.token, Token::Free);
    assert_eq!(rt; shared.memory.read(1), Ok(7));
    let entry = shared.record.get(0)?;
    assert_eq!(rt; entry.core, me);
    assert_eq!(rt; entry.mark, Mark::Completed);
    assert_eq!(rt; entry.count.value(), 4);
    assert_eq!(rt; core.step(me, &mut shared)?.answer, Answer::Done);
    assert_eq!(rt; core.status().pc, 5);
    assert_eq!(rt; core.step(me, &mut shared)?.answer, Answer::Stopped);
    assert_eq!(rt; shared.record.len(), 2);
    Ok(())
}

#[test]
fn a_block_rolls_back_after_a_write_to_its_tagged_word(rt: HostRuntime) -> Result<(), Fail> {
    let me = CoreNumber::new(3).ok_or(Missing::Number)?;
    let mut core = Core::new(0).ok_or(Missing::Core)?;
    let mut words = [7, 0];
    let mut shared = shared(Program::read(&COPY)?, Token::Host, &mut words);
    for _ in 0..3 {
        assert_eq!(rt; core.step(me, &mut shared)?.answer, Answer::Running);
    }
    let mut list = [9, 9];
    assert_eq!(rt; core.tags(&mut list[0..0]), Err(TagsRefusal::TooShort));
    assert_eq!(rt; core.tags(&mut list), Ok(1));
    assert_eq!(rt; list, [0, 9]);
    core.abort_on_write(1);
    assert_eq!(rt; core.status().state, State::Transaction);
    core.abort_on_write(0);
    assert_eq!(rt; core.status().state, State::Abort);
    assert_eq!(rt; core.step(me, &mut shared)?.answer, Answer::RolledBack);
    assert_eq!(rt; core.status().state, State::Bypass);
    assert_eq!(rt; core.status().pc, 0);
    assert_eq!(rt; core.status().used, 0);
    Ok(())
}

#[test]
fn copies_of_a_core_and_a_record_stay_as_they_were(rt: HostRuntime) -> Result<(), Fail> {
    let me = CoreNumber::new(1).ok_or(Missing::Number)?;
    let mut core = Core::new(0).ok_or(Missing::Core)?;
    let mut words = [7, 0];
    let mut shared = shared(Program::read(&COPY)?, Token::Free, &mut words);
    for _ in 0..2 {
        assert_eq!(rt; core.step(me, &mut shared)?.answer, Answer::Running);
    }
    let before = core;
    for _ in 0..3 {
        core.step(me, &mut shared)?;
    }
    assert_eq!(rt; core.status().state, State::Bypass);
    assert_eq!(rt; core.status().used, 0);
    assert_eq!(rt; before.status().state, State::Transaction);
    assert_eq!(rt; before.status().used, 1);
    let mut list = [9];
    assert_eq!(rt; before.tags(&mut list), Ok(1));
    assert_eq!(rt; list, [0]);
    let record = shared.record;
    shared.record.clear();
    assert_eq!(rt; shared.record.len(), 0);
    assert!(rt; shared.record.get(0).is_err());
    assert_eq!(rt; record.len(), 1);
    assert_eq!(rt; record.get(0)?.core, me);
    Ok(())
}

#[test]
fn a_block_nests_255_deep(rt: HostRuntime) -> Result<(), Fail> {
    let me = CoreNumber::new(7).ok_or(Missing::Number)?;
    let mut core = Core::new(0).ok_or(Missing::Core)?;
    let mut words = [7];
    let mut shared = shared(Program::read(&NEST)?, Token::Free, &mut words);
    for _ in 0..510 {
        assert_eq!(rt; core.step(me, &mut shared)?.answer, Answer::Running);
    }
    assert_eq!(rt; core.status().depth, 255);
    let fault = Fault::TooDeep;
    assert_eq!(rt;
        core.step(me, &mut shared)?.answer,
        Answer::Faulted { fault, pc: 0 }
    );
    assert_eq!(rt; core.status().state, State::Stopped);
    Ok(())
}

#[test]
fn a_core_starts_below_512(rt: HostRuntime) {
    assert!(rt; Core::new(511).is_some());
    assert!(rt; Core::new(512).is_none());
}

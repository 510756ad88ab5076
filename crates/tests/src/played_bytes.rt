// Lists of calls played over bytes.
use calls::call::CallFault;
use calls::export::{PlayRefusal, hub_play};
use calls::reply::{fault_bytes, reply_bytes};
use calls::settings::Settings;
use formats::refusal::{Placed, ProgramFault};
use model::call::Reply;
use model::refusal::{CheckRefusal, ReadRefusal};

// BEGIN; LOAD d 1; SET d 2 n 1; ADD d 1 a 1 b 2; STORE b 1; END; HALT
const ADD_ONE: [u8; 28] = [
    0x50, 0, 0, 0, 0x29, 0, 0, 0, 0x0A, 0, 0, 1, 0x11, 0x28, 0, 0, 0x30, 4, 0, 0, 0x58, 0, 0, 0, 0,
    0, 0, 0,
];

#[test]
fn two_blocks_conflict_and_one_rolls_back(rt: HostRuntime) {
    // lines 4; two cores that start at 0
    let settings = [4, 0, 0, 0, 0];
    let calls = [
        1, 0, 0, 0, 1, 0, 0, 0, 1, 0, 0, 0, 1, 0, 0, 0, 1, 0, 0, 0, 1, 0, 0, 1, 1, 0, 0, 1, 1, 0,
        0, 0, 1, 0, 0, 1, 1, 0, 0, 0, 1, 0, 0, 1, 1, 0, 0, 2, 9, 0, 0, 0, 2, 0, 0, 1, 3, 0, 0, 0,
    ];
    let mut memory = [0, 0, 0, 0];
    let mut answers = [0xEE; 120];
    let mut sent = [0; 0];
    assert_eq!(rt;
        hub_play(
            &ADD_ONE,
            &settings,
            &mut memory,
            &calls,
            &mut answers,
            &mut sent,
        ),
        15
    );
    assert_eq!(rt; memory, [0, 0, 0, 1]);
    // core 0 runs five times, core 1 twice; then committing, running, done, rolled back
    assert_eq!(rt; answers[50], 1);
    assert_eq!(rt; answers[58], 4);
    assert_eq!(rt; answers[66], 1);
    assert_eq!(rt; answers[74], 3);
    assert_eq!(rt; answers[82], 8);
    // there is no core 2; 9 is no kind of call; a turn has no operand; the record is cleared
    assert_eq!(rt; answers[88..].starts_with(&[1, 10, 0, 0, 0, 0, 0, 0]), true);
    assert_eq!(rt; answers[96..].starts_with(&[0, 2, 0, 0, 0, 0, 0, 0]), true);
    assert_eq!(rt; answers[104..].starts_with(&[0, 3, 0, 0, 0, 0, 0, 0]), true);
    assert_eq!(rt; answers[112..].starts_with(&[3, 0, 0, 0, 0, 0, 0, 0]), true);
}

#[test]
fn a_word_is_sent_and_the_host_reads(rt: HostRuntime) {
    // SET d 1 n 7; OUT a 1 n 200; LOAD a 1; HALT
    let program = [
        0x09, 0, 0, 7, 0x70, 0x20, 0, 200, 0x28, 0x20, 0, 0, 0, 0, 0, 0,
    ];
    let calls = [
        2, 0, 0, 0, 2, 0, 0, 0, 7, 0, 0, 0, 7, 0, 0, 0, 4, 0, 0, 0, 5, 0, 0, 0, 5, 0, 0, 1, 6, 0,
        0, 0, 6, 0, 0, 0, 2, 0, 0, 0, 2, 0, 0, 0, 1,
    ];
    let mut memory = [1, 2, 3, 4, 5];
    let mut answers = [0xEE; 81];
    let mut sent = [9; 6];
    assert_eq!(rt;
        hub_play(
            &program,
            &[1, 0, 0, 9],
            &mut memory,
            &calls,
            &mut answers,
            &mut sent,
        ),
        10
    );
    assert_eq!(rt; sent, [200, 0, 0, 0, 7, 9]);
    assert_eq!(rt; memory, [1, 2, 3, 4, 5]);
    assert_eq!(rt;
        answers,
        [
            1, 0, 3, 0, 0, 0, 0, 0, 1, 0, 3, 0, 0, 0, 0, 0, 7, 0, 200, 0, 0, 0, 0, 7, 7, 15, 0, 0,
            0, 0, 0, 0, 4, 0, 0, 0, 0, 0, 0, 0, 5, 0, 0, 0, 1, 2, 3, 4, 5, 14, 0, 0, 0, 0, 0, 0, 6,
            0, 0, 0, 0, 0, 0, 0, 6, 13, 0, 0, 0, 0, 0, 0, 1, 0, 10, 1, 0, 0, 0, 2, 0xEE,
        ]
    );
}

#[test]
fn a_refusal_changes_nothing(rt: HostRuntime) {
    let calls = [2, 0, 0, 0];
    let mut memory = [1, 2, 3, 4];
    let mut answers = [0xEE; 8];
    let mut sent = [9; 5];
    // one SET: instruction 0 does not end a program
    assert_eq!(rt;
        hub_play(
            &[9, 0, 0, 7],
            &[1, 0, 0],
            &mut memory,
            &calls,
            &mut answers,
            &mut sent,
        ),
        0x8000_0005_0000_0000
    );
    // END with a field that it does not name is instruction 1
    assert_eq!(rt;
        hub_play(
            &[0, 0, 0, 0, 0x58, 0, 0, 1],
            &[1, 0, 0],
            &mut memory,
            &calls,
            &mut answers,
            &mut sent,
        ),
        0x8000_0003_0000_0001
    );
    // no entry place, and 33 lines
    assert_eq!(rt;
        hub_play(&ADD_ONE, &[], &mut memory, &calls, &mut answers, &mut sent),
        0x8000_0006_0000_0000
    );
    assert_eq!(rt;
        hub_play(
            &ADD_ONE,
            &[33, 0, 0],
            &mut memory,
            &calls,
            &mut answers,
            &mut sent,
        ),
        0x8000_0007_0000_0000
    );
    assert_eq!(rt; memory, [1, 2, 3, 4]);
    assert_eq!(rt; answers, [0xEE; 8]);
    assert_eq!(rt; sent, [9; 5]);
}

#[test]
fn replies_and_settings_are_bytes_for_callers_too(rt: HostRuntime) {
    assert_eq!(rt; reply_bytes(Reply::Word(Ok(258))), [5, 0, 0, 0, 0, 0, 1, 2]);
    assert_eq!(rt;
        reply_bytes(Reply::Word(Err(ReadRefusal::AddressOutside))),
        [5, 14, 0, 0, 0, 0, 0, 0]
    );
    assert_eq!(rt;
        fault_bytes(CallFault::UnknownKind),
        [0, 2, 0, 0, 0, 0, 0, 0]
    );
    let settings = Settings::read(&[4, 0, 7, 1, 0, 9]);
    let copy = settings;
    assert_eq!(rt; settings.lines(), 4);
    assert_eq!(rt; settings.places(), &[7, 256][..]);
    assert_eq!(rt; copy.places(), &[7, 256][..]);
    assert_eq!(rt; Settings::read(&[1; 40]).places().len(), 9);
    assert_eq!(rt; Settings::read(&[]).places().len(), 0);
}

#[test]
fn a_refusal_tells_its_place_or_none(rt: HostRuntime) {
    let program = PlayRefusal::Program(Placed {
        fault: ProgramFault::NoEnd,
        place: 3,
    });
    assert_eq!(rt; program.place(), Some(3));
    assert_eq!(rt; program.place_or_zero(), 3);
    let settings = PlayRefusal::Settings(CheckRefusal::LineCount);
    assert_eq!(rt; settings.place(), None);
    assert_eq!(rt; settings.place_or_zero(), 0);
}

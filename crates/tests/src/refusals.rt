// Refusals: the number of each question, and the place that a fault gains on its way up.
use formats::answer::Fault;
use formats::refusal::{
    EntryFault, InstructionFault, ListRefusal, NothingWaits, OutsideList, OutsideMemory, Placed,
    ProgramFault, ProgramRefusal, Refusal, at_place,
};
use std::test::Fail;

#[test]
fn numbers_of_the_questions(rt: HostRuntime) {
    let placed = Placed {
        fault: InstructionFault::BadField,
        place: 7,
    };
    assert_eq!(rt; ListRefusal::Entry(placed).number(), 3);
    assert_eq!(rt; ListRefusal::<InstructionFault>::Outside.number(), 16);
    assert_eq!(rt; EntryFault::OutOfRange.number(), 18);
    assert_eq!(rt; OutsideMemory.number(), 14);
    assert_eq!(rt; NothingWaits.number(), 15);
    assert_eq!(rt; OutsideList.number(), 16);
    assert_eq!(rt; ProgramFault::NoEnd.number(), 5);
    assert_eq!(rt; Fault::RetryAfterEarly.number(), 6);
}

#[test]
fn a_fault_gains_its_place_on_the_way_up(rt: HostRuntime) -> Result<(), Fail> {
    let fault: Result<u8, InstructionFault> = Err(InstructionFault::UnknownOpcode);
    let Err(placed) = at_place(fault, 3) else {
        return Err(Fail::new("no fault"));
    };
    let refusal = ProgramRefusal::from(ListRefusal::from(placed));
    assert_eq!(rt; refusal.number(), 2);
    assert_eq!(rt; refusal.place, 3);
    Ok(())
}

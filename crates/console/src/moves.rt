// Moves of an engine, over any memory and any outlet.
ghost use Rattle.std.specs.Prelude.{◌≡◌, IfOk, string_bytes};
ghost use Rattle.console.specs.Repeated.{moved, repeated, repeated_reply};

use crate::command::Move;
use crate::replies::moved_reply;
use engine::engine::Hosted;
use formats::answer::Answer;
use memory::shared::Memory;
use model::refusal::StepRefusal;
use outlet::waiting::Outlet;
use std::alloc::{AllocError, Global};

// One move. A match and no closure: a text says which core moves.
fn advance<M: Memory, O: Outlet>(
    hosted: &mut Hosted<M, O>,
    which: Move,
) -> Result<Answer, StepRefusal>
    ensures after { hosted.new ≡ (moved hosted.old which).engine }
    ensures answer { result ≡ (moved hosted.old which).answer }
{
    match which {
        Move::Step(i) => hosted.step(i),
        Move::Turn => hosted.turn(),
    }
}

// The last answer of some moves, and how many were called.
#[derive(Clone, Copy, PartialEq, Eq, Debug)]
pub(crate) struct Moved {
    last: Option<Result<Answer, StepRefusal>>,
    count: usize,
}

// Up to so many moves, stopping after the first refusal.
pub(crate) fn repeat<M: Memory, O: Outlet>(
    hosted: &mut Hosted<M, O>,
    which: Move,
    times: usize,
) -> Moved
    ensures after { hosted.new ≡ (repeated hosted.old which times).engine }
    ensures answer { result ≡ (repeated hosted.old which times).answer }
{
    let mut last = None;
    // How many were called is part of the answer.
    for called in 0..times {
        let answer = advance(hosted, which);
        last = Some(answer);
        if answer.is_err() {
            let count = called + 1;
            return Moved { last, count };
        }
    }
    Moved { last, count: times }
}

// The reply to some moves.
pub(crate) fn repeated_reply(heap: Global, moved: Moved) -> Result<String, AllocError>
    ensures { IfOk result (λ s. string_bytes s ≡ repeated_reply moved) }
{
    let count = moved.count;
    match moved.last {
        Some(answer) => {
            let reply = moved_reply(heap, answer)?;
            format!(in heap; "{reply} after {count}")
        }
        None => format!(in heap; "none after {count}"),
    }
}

// Playing a list of calls on a new engine. The three laws stand in this call's contract.
ghost use Rattle.std.specs.Prelude.{◌≡◌, ◌++◌, length, drop};
ghost use Rattle.model.specs.Engine.{make};
ghost use Rattle.model.specs.Runs.{replies as model_replies};
ghost use Rattle.model.specs.Traces.{history};
ghost use Rattle.model.specs.Laws.{Lawful};
ghost use Rattle.cores.specs.Shareds.{outlet_of};
ghost use Rattle.engine.specs.Engines.{playable};

use crate::engine::Hosted;
use crate::settings::Settings;
use memory::shared::Memory;
use model::call::{Call, Reply};
use outlet::waiting::Outlet;

/// Makes an engine and plays the first calls of a list on it, as many as there are places for replies. Each call acts on
/// what those before it left, refused ones included. The replies fill the first places of their list; the others stay.
/// At every point of the run the serial law, the roll-back law and the held-read law hold.
pub fn play<M: Memory, O: Outlet>(
    settings: Settings<'_>,
    memory: M,
    outlet: O,
    calls: &[Call],
    replies: &mut [Reply],
) -> Hosted<M, O>
    ensures engine { let calls = playable calls.now replies.old in
        result ≡ (history settings.entry (M.Memory.words memory) (outlet_of O.Outlet outlet) calls).engine }
    ensures replies { let calls = playable calls.now replies.old in
        let new = make settings.entry (M.Memory.words memory) (outlet_of O.Outlet outlet) in
        replies.new ≡ model_replies new calls ++ drop (length calls) replies.old }
    ensures lawful { Lawful settings.entry (M.Memory.words memory) (outlet_of O.Outlet outlet) (playable calls.now replies.old) }
{
    let mut hosted = Hosted::make(settings, memory, outlet);
    let count = calls.len().min(replies.len());
    // Replies by index: nothing is known of a list afterwards that was lent out item by item beside another.
    for (i, call) in calls[..count].iter().enumerate() {
        replies[i] = hosted.perform(*call);
    }
    hosted
}

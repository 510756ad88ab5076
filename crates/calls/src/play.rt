// Playing a packed list of calls on a new engine, over any memory and any outlet.
ghost use Rattle.std.specs.Prelude.{◌≡◌, length};
ghost use Rattle.model.specs.Engine.{make};
ghost use Rattle.model.specs.Traces.{history};
ghost use Rattle.model.specs.Laws.{Lawful};
ghost use Rattle.cores.specs.Shareds.{outlet_of};
ghost use Rattle.calls.specs.Calls.{call_of};
ghost use Rattle.calls.specs.Playing.{answered, after, calls_in, words_played, answers_left};

use crate::call::decode;
use crate::reply::{fault_bytes, reply_bytes};
use engine::engine::Hosted;
use engine::settings::Settings;
use memory::shared::Memory;
use outlet::waiting::Outlet;

// Plays one word of a packed list, and gives the bytes that answer it.
fn answer<M: Memory, O: Outlet>(hosted: &mut Hosted<M, O>, word: u32) -> [u8; 8]
    ensures after { hosted.new ≡ after hosted.old (call_of word) }
    ensures answer { result ≡ answered hosted.old (call_of word) }
{
    match decode(word) {
        Ok(call) => reply_bytes(hosted.perform(call)),
        Err(fault) => fault_bytes(fault),
    }
}

/// An engine after a packed list of calls, with the host's pass where the host has the token, and how many calls were played.
pub struct Played<M: Memory, O: Outlet> {
    pub hosted: Hosted<M, O>,
    pub count: usize,
}

/// Makes an engine and plays the first words of a packed list of calls on it, as many as there is place for whole answers.
/// The bytes past their answers stay. At every point of the run the serial law, the roll-back law and the held-read law
/// hold.
pub fn play_packed<M: Memory, O: Outlet>(
    settings: Settings<'_>,
    memory: M,
    outlet: O,
    calls: &[u8],
    answers: &mut [u8],
) -> Played<M, O>
    ensures engine { let calls = calls_in (words_played calls.now answers.old) in
        result.hosted ≡ (history settings.entry (M.Memory.words memory) (outlet_of O.Outlet outlet) calls).engine }
    ensures count { result.count ≡ length (words_played calls.now answers.old) }
    ensures answers { let new = make settings.entry (M.Memory.words memory) (outlet_of O.Outlet outlet) in
        answers.new ≡ answers_left new (words_played calls.now answers.old) answers.old }
    ensures lawful { let calls = calls_in (words_played calls.now answers.old) in
        Lawful settings.entry (M.Memory.words memory) (outlet_of O.Outlet outlet) calls }
{
    let mut hosted = Hosted::make(settings, memory, outlet);
    let (words, _) = calls.as_chunks::<4>();
    let count = words.len().min(answers.len() / 8);
    // Answers by index: nothing is known of bytes afterwards that were lent out chunk by chunk.
    for (i, word) in words[..count].iter().enumerate() {
        let at = 8 * i;
        let bytes = answer(&mut hosted, u32::from_be_bytes(*word));
        answers[at..at + 8].copy_from_slice(&bytes);
    }
    Played { hosted, count }
}

// The same, with the engine let go at the end: what it stands on goes back to its lender.
pub(crate) fn play_to_end<M: Memory + Drop, O: Outlet + Drop>(
    settings: Settings<'_>,
    memory: M,
    outlet: O,
    calls: &[u8],
    answers: &mut [u8],
) -> usize
    ensures count { result ≡ length (words_played calls.now answers.old) }
    ensures answers { let new = make settings.entry (M.Memory.words memory) (outlet_of O.Outlet outlet) in
        answers.new ≡ answers_left new (words_played calls.now answers.old) answers.old }
    ensures lawful { let calls = calls_in (words_played calls.now answers.old) in
        Lawful settings.entry (M.Memory.words memory) (outlet_of O.Outlet outlet) calls }
{
    let Played { hosted, count } = play_packed(settings, memory, outlet, calls, answers);
    hosted.close();
    count
}

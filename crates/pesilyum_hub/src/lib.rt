// The exported call for C, under the name by which C calls it.
#![tactic(auto)]

ghost use Rattle.std.specs.Prelude.{◌≡◌};
ghost use Rattle.calls.specs.Export.{accepted, play_result, answers_after, LawfulRun, KeptIfRefused, result_code};

use calls::export;

/// Plays a packed list of calls on a new engine, and answers how many were played, or the first refusal, as one number.
#[unsafe(no_mangle)]
pub extern "C" fn hub_play(
    program: &[u8],
    settings: &[u8],
    memory: &mut [u8],
    calls: &[u8],
    answers: &mut [u8],
    sent: &mut [u8],
) -> u64
    ensures play_result { result ≡ result_code (play_result (accepted program.now settings.now memory.old) calls.now answers.old) }
    ensures answers { let program = accepted program.now settings.now memory.old in
        answers.new ≡ answers_after program settings.now memory.old sent.old calls.now answers.old }
    ensures lawful { LawfulRun (accepted program.now settings.now memory.old) settings.now memory.old sent.old calls.now answers.old }
    ensures memory { KeptIfRefused (accepted program.now settings.now memory.old) memory.old memory.new }
    ensures sent { KeptIfRefused (accepted program.now settings.now memory.old) sent.old sent.new }
{
    export::hub_play(program, settings, memory, calls, answers, sent)
}

// Playing a packed list of calls over byte slices: the call for Rust, and the one that is exported to C.
ghost use Rattle.std.specs.Prelude.{◌≡◌};
ghost use Rattle.std.specs.Option.{unwrap_or};
ghost use Rattle.calls.specs.Export.{accepted, play_result, answers_after, LawfulRun, KeptIfRefused, play_number, play_place, result_code};
ghost use Rattle.calls.specs.declared.export.PlayRefusal.TheVariants.{Program as OfProgram, Settings as OfSettings};

use crate::play::play_to_end;
use codecs::program::Program;
use engine::settings::Settings;
use formats::refusal::{ProgramRefusal, Refusal};
use memory::bytes::ByteMemory;
use memory::shared::Memory;
use model::refusal::CheckRefusal;
use outlet::bytes::ByteOutlet;

/// A program or settings that are not accepted.
#[derive(Clone, Copy, PartialEq, Eq, Debug)]
pub enum PlayRefusal {
    Program(ProgramRefusal),
    Settings(CheckRefusal),
}

impl From<ProgramRefusal> for PlayRefusal {
    ghost from_gives = { λ p r. r ≡ OfProgram p };

    fn from(value: ProgramRefusal) -> PlayRefusal {
        PlayRefusal::Program(value)
    }
}

impl From<CheckRefusal> for PlayRefusal {
    ghost from_gives = { λ p r. r ≡ OfSettings p };

    fn from(value: CheckRefusal) -> PlayRefusal {
        PlayRefusal::Settings(value)
    }
}

impl Refusal for PlayRefusal {
    ghost number = { play_number };

    fn number(&self) -> u8 {
        match self {
            PlayRefusal::Program(refusal) => refusal.number(),
            PlayRefusal::Settings(refusal) => refusal.number(),
        }
    }
}

impl PlayRefusal {
    /// The place in the program that is refused; settings have none.
    pub fn place(self) -> Option<usize>
        ensures { result ≡ play_place self }
    {
        match self {
            PlayRefusal::Program(refusal) => Some(refusal.place),
            PlayRefusal::Settings(_) => None,
        }
    }

    /// The same as a number: 0 where there is no place.
    pub fn place_or_zero(self) -> usize
        ensures { result ≡ unwrap_or (play_place self) 0 }
    {
        self.place().unwrap_or(0)
    }
}

/// Plays a packed list of calls on a new engine. Memory and sent words are the handed-in bytes themselves.
/// Answers how many calls were played, or the first refusal of program and settings; on a refusal no byte changes.
pub fn play_bytes(
    program: &[u8],
    settings: &[u8],
    memory: &mut [u8],
    calls: &[u8],
    answers: &mut [u8],
    sent: &mut [u8],
) -> Result<usize, PlayRefusal>
    ensures play_result { result ≡ play_result (accepted program.now settings.now memory.old) calls.now answers.old }
    ensures answers { let program = accepted program.now settings.now memory.old in
        answers.new ≡ answers_after program settings.now memory.old sent.old calls.now answers.old }
    ensures lawful { LawfulRun (accepted program.now settings.now memory.old) settings.now memory.old sent.old calls.now answers.old }
    ensures memory { KeptIfRefused (accepted program.now settings.now memory.old) memory.old memory.new }
    ensures sent { KeptIfRefused (accepted program.now settings.now memory.old) sent.old sent.new }
{
    let program = Program::read(program)?;
    let read = crate::settings::Settings::read(settings);
    let settings = Settings {
        program: &program,
        places: read.places(),
        lines: read.lines(),
    };
    let memory = ByteMemory::new(memory);
    settings.check(memory.len())?;
    Ok(play_to_end(settings, memory, ByteOutlet::new(sent), calls, answers))
}

// The result of playing, as one number: the count of calls played; or the highest bit, the question's number from bit 32
// on, and the number of the instruction.
fn result_code(res: Result<usize, PlayRefusal>) -> u64
    ensures { result ≡ result_code res }
{
    match res {
        Ok(count) => count as u64,
        Err(refusal) => 9223372036854775808
            + u64::from(refusal.number()) * 4294967296
            + refusal.place_or_zero() as u64 % 4294967296,
    }
}

/// The same for C, with the answer as one number. Crate pesilyum_hub exports it: one crate is built for Rust or for C, and tests need
/// the one for Rust. Parameters as C hands them in.
pub fn hub_play(
    program: &[u8],
    settings: &[u8],
    memory: &mut [u8],
    calls: &[u8],
    answers: &mut [u8],
    sent: &mut [u8],
) -> u64
    ensures play_result { result ≡ result_code (play_result (accepted program.now settings.now memory.old) calls.now answers.old) }
    ensures answers { let program = accepted program.now settings.now memory.old in
        answers.new ≡ answers_after program settings.now memory.old sent.old calls.now answers.old }
    ensures lawful { LawfulRun (accepted program.now settings.now memory.old) settings.now memory.old sent.old calls.now answers.old }
    ensures memory { KeptIfRefused (accepted program.now settings.now memory.old) memory.old memory.new }
    ensures sent { KeptIfRefused (accepted program.now settings.now memory.old) sent.old sent.new }
{
    result_code(play_bytes(program, settings, memory, calls, answers, sent))
}

// What an engine is made from besides memory and outlet.
ghost use Rattle.std.specs.Prelude.{◌≡◌, ◌≤◌, true, length, OnOk};
ghost use Rattle.model.specs.Engine.{all_below, check};

use codecs::program::Program;
use formats::bounds::{MOST_CORES, MOST_ENGINE_WORDS, MOST_INSTRUCTIONS, MOST_LINES};
use model::refusal::CheckRefusal;
use std::marker::Model;

/// A program, the places where its cores begin, and how many lines each core has.
#[derive(Drop)]
pub struct Settings<'a> {
    pub program: &'a Program,
    pub places: &'a [usize],
    pub lines: usize,
}

// Seen as the model's settings: what they refer to, and not where that lies.
impl<'a> Model for Settings<'a> {
    ghost use Rattle.model.specs.Engine.{Settings as ModelSettings};

    ghost Value = { ModelSettings };

    ghost view = { λ s. record { program = s.program.now; places = s.places.now; lines = s.lines } };
}

// Whether every number is below a bound.
fn all_below(places: &[usize], bound: usize) -> bool
    ensures { result ≡ all_below places.now bound }
{
    places.iter().all(|place| *place < bound)
}

impl Settings<'_> {
    /// The first refusal, with a memory of so many words.
    pub fn check(&self, words: usize) -> Result<(), CheckRefusal>
        ensures answer { result ≡ check self.now words }
        ensures few { OnOk result (length self.now.places ≤ MOST_CORES) }
        ensures low { OnOk result (all_below self.now.places MOST_INSTRUCTIONS ≡ true) }
    {
        if !(1..=MOST_CORES).contains(&self.places.len()) {
            return Err(CheckRefusal::CoreCount);
        }
        if !(1..=MOST_LINES).contains(&self.lines) {
            return Err(CheckRefusal::LineCount);
        }
        if !(1..=MOST_ENGINE_WORDS).contains(&words) {
            return Err(CheckRefusal::MemoryLength);
        }
        if !all_below(self.places, self.program.len()) {
            return Err(CheckRefusal::EntryOutside);
        }
        Ok(())
    }
}

// A shared memory over a handed-in list of words.
ghost use Rattle.std.specs.Prelude.{◌≡◌};
ghost use Rattle.memory.specs.Shared.{written, write_answer};
ghost use Rattle.memory.specs.Words.{memory_of, words_backing, all_written};

use crate::shared::{MOST_WORDS, Memory};
use formats::refusal::OutsideMemory;

/// The first 65,536 words of `all` are the memory; those past them are never touched.
#[derive(Drop)]
pub struct WordMemory<'a> {
    all: &'a mut [u32],
}

impl<'a> WordMemory<'a> {
    /// The memory over the words handed in, which it leaves as they are.
    pub fn new(all: &'a mut [u32]) -> WordMemory<'a>
        ensures holds { result.all.ghost_name ≡ all.entry.ghost_name }
        ensures value { result.all.now ≡ all.old }
    {
        WordMemory { all }
    }

    // The words that are the memory.
    fn words(&self) -> &[u32]
        ensures { result.now ≡ memory_of self.now.all.now }
    {
        &self.all[..self.all.len().min(MOST_WORDS)]
    }
}

impl<'a> Memory for WordMemory<'a> {
    ghost words = { λ m. memory_of m.all.now };

    ghost backing = { λ m. words_backing m.all };

    fn len(&self) -> usize {
        self.words().len()
    }

    fn read(&self, address: usize) -> Result<u32, OutsideMemory> {
        self.words().get(address).copied().ok_or(OutsideMemory)
    }

    fn write(&mut self, address: usize, word: u32) -> Result<(), OutsideMemory>
        ensures value { result ≡ write_answer (memory_of self.old.all.now) address }
        ensures after { memory_of self.new.all.now ≡ written (memory_of self.old.all.now) address word }
        ensures same { words_backing self.new.all ≡ words_backing self.old.all }
        ensures buffer { self.new.all.now ≡ all_written self.old.all.now address word }
    {
        // By index, and not by get_mut: nothing is known of a slice afterwards that was lent out by it.
        self.read(address)?;
        self.all[address] = word;
        Ok(())
    }
}

// What a shared memory is: a list of words of fixed length, read and written word by word.
ghost use Rattle.std.specs.Prelude.{◌≡◌, ℕ, ◌≤◌, List, length};
ghost use Rattle.memory.specs.Backing.{Backing};
ghost use Rattle.memory.specs.Shared.{word_at, written, write_answer};

use formats::refusal::OutsideMemory;

/// The most words that a memory has.
pub const MOST_WORDS: usize = 65_536;

/// The two forms are written each for itself, since a word is one element of the one and four bytes of the other.
/// `words m` is the list of words that the memory m means, at most 65,536.
/// `backing m` is what m stands on besides them: its handed-in buffer, and what of that is no word of m.
pub trait Memory {
    ghost words: { Self → List ℕ };

    ghost backing: { Self → Backing };

    /// How many words there are.
    fn len(&self) -> usize
        ensures value { result ≡ length (words self.now) }
        ensures bound { result ≤ 65536 };

    /// The word at an address; an address outside is refused.
    fn read(&self, address: usize) -> Result<u32, OutsideMemory>
        ensures { result ≡ word_at (words self.now) address };

    /// Replaces the word at an address; an address outside is refused, and nothing changes.
    fn write(&mut self, address: usize, word: u32) -> Result<(), OutsideMemory>
        ensures value { result ≡ write_answer (words self.old) address }
        ensures after { words self.new ≡ written (words self.old) address word }
        ensures same { backing self.new ≡ backing self.old };
}

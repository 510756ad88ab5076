// A shared memory over handed-in bytes, four to a word, most significant first.
ghost use Rattle.std.specs.Prelude.{◌≡◌, map};
ghost use Rattle.std.specs.Int.{from_be_bytes, w32};
ghost use Rattle.memory.specs.Shared.{written, write_answer};
ghost use Rattle.memory.specs.Bytes.{memory_in, bytes_backing, bytes_written};

use crate::shared::{MOST_WORDS, Memory};
use formats::refusal::OutsideMemory;

/// The first 65,536 whole words in `bytes` are the memory; the bytes past them are never touched.
#[derive(Drop)]
pub struct ByteMemory<'a> {
    bytes: &'a mut [u8],
}

impl<'a> ByteMemory<'a> {
    /// The memory over the bytes handed in, which it leaves as they are.
    pub fn new(bytes: &'a mut [u8]) -> ByteMemory<'a>
        ensures holds { result.bytes.ghost_name ≡ bytes.entry.ghost_name }
        ensures value { result.bytes.now ≡ bytes.old }
    {
        ByteMemory { bytes }
    }

    // The words that are the memory, four bytes each.
    fn words(&self) -> &[[u8; 4]]
        ensures { map (from_be_bytes w32) result.now ≡ memory_in self.now.bytes.now }
    {
        let (words, _) = self.bytes.as_chunks::<4>();
        &words[..words.len().min(MOST_WORDS)]
    }
}

impl<'a> Memory for ByteMemory<'a> {
    ghost words = { λ m. memory_in m.bytes.now };

    ghost backing = { λ m. bytes_backing m.bytes };

    fn len(&self) -> usize {
        self.words().len()
    }

    fn read(&self, address: usize) -> Result<u32, OutsideMemory> {
        let four = self.words().get(address).ok_or(OutsideMemory)?;
        Ok(u32::from_be_bytes(*four))
    }

    fn write(&mut self, address: usize, word: u32) -> Result<(), OutsideMemory>
        ensures value { result ≡ write_answer (memory_in self.old.bytes.now) address }
        ensures after { memory_in self.new.bytes.now ≡ written (memory_in self.old.bytes.now) address word }
        ensures same { bytes_backing self.new.bytes ≡ bytes_backing self.old.bytes }
        ensures buffer { self.new.bytes.now ≡ bytes_written self.old.bytes.now address word }
    {
        self.read(address)?;
        let at = 4 * address;
        self.bytes[at..at + 4].copy_from_slice(&word.to_be_bytes());
        Ok(())
    }
}

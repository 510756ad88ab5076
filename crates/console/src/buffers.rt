// The memory and the outlet that the next engine is made from.
ghost use Rattle.std.specs.Prelude.{◌≡◌, replicate, IfOk};
ghost use Rattle.console.specs.Buffers.{memory_value, outlet_value, words as value_words, words_in, room_in};

use memory::shared::MOST_WORDS;
use outlet::store::PLACES;
use std::alloc::{AllocError, Global};

/// A buffer for a shared memory.
#[derive(Drop)]
pub enum MemoryBuffer {
    Words(Vec<u32>),
    Bytes(Vec<u8>),
}

/// A buffer for an outlet, which the store does not need. No Option: both forms have their name.
#[derive(Drop)]
pub enum OutletBuffer {
    Store,
    Bytes(Vec<u8>),
}

impl MemoryBuffer {
    // Sixteen zero words.
    pub(crate) fn sixteen_zeros(heap: Global) -> Result<MemoryBuffer, AllocError>
        ensures { IfOk result (λ b. memory_value b ≡ value_words (replicate 16 0)) }
    {
        Ok(MemoryBuffer::Words(vec![in heap; 0; 16]?))
    }

    // How many words it has as a memory.
    pub(crate) fn words(&self) -> usize
        ensures { result ≡ words_in (memory_value self.now) }
    {
        match self {
            MemoryBuffer::Words(words) => words.len().min(MOST_WORDS),
            MemoryBuffer::Bytes(bytes) => (bytes.len() / 4).min(MOST_WORDS),
        }
    }
}

impl OutletBuffer {
    // How many entries there is room for in a new outlet.
    pub(crate) fn room(&self) -> usize
        ensures { result ≡ room_in (outlet_value self.now) }
    {
        match self {
            OutletBuffer::Store => PLACES,
            OutletBuffer::Bytes(bytes) => bytes.len() / 5,
        }
    }
}

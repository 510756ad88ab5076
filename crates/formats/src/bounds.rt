// The bounds of an engine, each named once.

/// The most cores that an engine has.
pub const MOST_CORES: usize = 8;

/// The most lines that the write buffer of a core has.
pub const MOST_LINES: usize = 32;

/// The most instructions that a program has.
pub const MOST_INSTRUCTIONS: usize = 512;

/// The most words that the memory of an engine has.
pub const MOST_ENGINE_WORDS: usize = 4096;

/// The most entries that the record of an engine has.
pub const MOST_ENTRIES: usize = 1024;

/// The most BEGINs that a block has open.
pub const MOST_BEGINS: u32 = 255;

/// The most instructions that a block performs.
pub const MOST_PERFORMED: u32 = 4096;

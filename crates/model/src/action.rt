// What an instruction asks for, and what that comes to inside a block: one form, for the definitions and for the code.
use formats::entry::SentEntry;
use formats::register::Register;

/// What a core does with its registers, with memory or with the outlet. After all but `Jumps` the next instruction is next.
#[derive(Clone, Copy)]
pub enum Operation {
    // register d becomes a word
    Sets { d: Register, word: u32 },
    // the instruction at pc is next
    Jumps { pc: usize },
    // register d becomes the word at an address
    Loads { address: usize, d: Register },
    // the word at an address becomes this one
    Stores { address: usize, word: u32 },
    // an entry is sent
    Sends(SentEntry),
}

/// What an instruction asks for.
#[derive(Clone, Copy)]
pub enum Action {
    Performs(Operation),
    // to open a block, to close one, to stop, to restart the block, to take the token now
    Begins,
    Ends,
    Halts,
    Retries,
    Earlies,
}

/// What an instruction that does not fault comes to inside a block.
#[derive(Clone, Copy)]
pub enum BlockAction {
    // an operation of the block
    Continues(Operation),
    // a BEGIN or an END of a block inside it: so many BEGINs are open then
    Nests { depth: u32 },
    // the END of its first BEGIN
    Closes,
    // the block is to start again
    Restarts,
    // the token is to be taken now
    TakesToken,
}

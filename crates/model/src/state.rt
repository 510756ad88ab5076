// What a core is doing, and who has the commit token.

/// The state of a core.
#[derive(Clone, Copy, PartialEq, Eq, Debug)]
pub enum State {
    // outside every block
    Bypass,
    // in a block, reading by tagged lines and writing to its buffer
    Transaction,
    // writing its buffer out, with the token, to end its block
    Commit,
    // a word that its block had read was written: it is to roll back
    Abort,
    // writing its buffer out, with the token, before the block ends
    EarlyFlush,
    // in a block with the token, reading and writing memory directly
    EarlyCommit,
    // stopped for good
    Stopped,
}

/// Who has the commit token.
#[derive(Clone, Copy, PartialEq, Eq, Debug)]
pub enum Token {
    Free,
    Core(usize),
    Host,
}

/// What people see of a core.
#[derive(Clone, Copy, PartialEq, Eq, Debug)]
pub struct Status {
    pub state: State,
    pub pc: usize,
    pub registers: [u32; 8],
    pub depth: u32,
    pub count: u32,
    // how many lines are used
    pub used: usize,
}

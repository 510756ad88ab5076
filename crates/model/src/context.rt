// The context of a core.

/// The number of the next instruction, and the eight registers.
#[derive(Clone, Copy, PartialEq, Eq, Debug)]
pub struct Context {
    pub pc: usize,
    pub registers: [u32; 8],
}

// A line of a write buffer.

/// A buffered word: where it belongs, what it is, whether the block read it from memory, whether it is still to be written.
#[derive(Clone, Copy, PartialEq, Eq, Default, Debug)]
pub struct Line {
    pub address: usize,
    pub value: u32,
    pub tag: bool,
    pub dirty: bool,
}

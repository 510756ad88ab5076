// Numbers that fit a field: no value of these types lies outside its range.
ghost use Rattle.std.specs.Prelude.{◌≡◌, ◌<◌, ◌≤◌, MatchOption};

/// A number below LIMIT.
#[derive(Clone, Copy, PartialEq, Eq, Debug)]
pub struct Below<const LIMIT: u32> {
    value: u32,
    ghost fits: { value < LIMIT },
}

/// An 18-bit number inside an instruction: a constant, an address offset or a jump target.
pub type Immediate = Below<262144>;

/// The channel that a word is sent on, 0 to 255.
pub type Channel = Below<256>;

/// A core's number, 0 to 7.
pub type CoreNumber = Below<8>;

/// How many instructions a unit performed, 0 to 4,096.
pub type UnitCount = Below<4097>;

impl<const LIMIT: u32> Below<LIMIT> {
    /// None where the number is not below the limit.
    pub fn new(value: u32) -> Option<Below<LIMIT>>
        ensures { MatchOption result (LIMIT ≤ value) (λ i. (value < LIMIT) × (i.value ≡ value)) }
    {
        if value < LIMIT {
            Some(Below { value })
        } else {
            None
        }
    }

    /// The number itself.
    pub fn value(self) -> u32
        ensures same { result ≡ self.entry.value }
        ensures fits { result < LIMIT }
    {
        self.value
    }
}

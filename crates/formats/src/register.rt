// A register number.
ghost use Rattle.std.specs.Prelude.{◌≡◌};
ghost use Rattle.formats.specs.Registers.{register_number};

/// One of the eight registers of a core.
#[derive(Clone, Copy, PartialEq, Eq, Debug)]
pub enum Register {
    R0,
    R1,
    R2,
    R3,
    R4,
    R5,
    R6,
    R7,
}

impl Register {
    /// 0 to 7.
    pub fn number(self) -> u8
        ensures { result ≡ register_number self }
    {
        self as u8
    }
}

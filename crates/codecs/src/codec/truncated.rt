// Values that fit a field, taken from a word.
ghost use Rattle.std.specs.Prelude.{◌≡◌, ◌<◌};
ghost use Rattle.formats.specs.Belows.{below};
ghost use Rattle.formats.specs.Registers.{register_at};

use formats::below::Below;
use formats::register::Register;

// What is left of a number below a limit: its remainder.
pub(crate) fn truncated<const LIMIT: u32>(number: u32) -> Below<LIMIT>
    requires { 0 < LIMIT }
    ensures { (some : 0 < LIMIT) → result ≡ below LIMIT some number }
{
    Below::new(number % LIMIT).unwrap()
}

// The register of a three-bit field. No TryFrom: there is no field that names none.
pub(crate) fn register_of(field: u32) -> Register
    ensures { result ≡ register_at field }
{
    match field {
        0 => Register::R0,
        1 => Register::R1,
        2 => Register::R2,
        3 => Register::R3,
        4 => Register::R4,
        5 => Register::R5,
        6 => Register::R6,
        _ => Register::R7,
    }
}

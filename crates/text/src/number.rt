// Numbers: decimal, or hexadecimal after `0x`.
ghost use Rattle.std.specs.Prelude.{◌≡◌, ◌+◌, ◌*◌, ◌≤◌};
ghost use Rattle.std.specs.Option.{option_and_then};
ghost use Rattle.text.specs.Numbers.{fitting, read_digits, read_number};

/// Why a token gives no number.
#[derive(Clone, Copy, PartialEq, Eq, Debug)]
pub enum NumberFault {
    // no digit, or a byte that is none
    NoNumber,
    // digits throughout, of a number above 4,294,967,295
    TooLarge,
}

// The number with one digit more behind it, if it is not too large.
fn with_digit(value: Option<u32>, base: u32, digit: u32) -> Option<u32>
    ensures { result ≡ option_and_then (λ n. fitting (n * base + digit)) value }
{
    value?.checked_mul(base)?.checked_add(digit)
}

// The number that digits of a base write.
fn read_digits(digits: &[u8], base: u32) -> Result<u32, NumberFault>
    requires at_least { 2 ≤ base }
    requires at_most { base ≤ 16 }
    ensures { result ≡ read_digits base digits.now }
{
    if digits.is_empty() {
        return Err(NumberFault::NoNumber);
    }
    // the number so far, if it is not too large
    let mut value = Some(0u32);
    for b in digits {
        let digit = char::from(*b).to_digit(base).ok_or(NumberFault::NoNumber)?;
        value = with_digit(value, base, digit);
    }
    value.ok_or(NumberFault::TooLarge)
}

/// The number that a token writes.
pub fn read_number(token: &[u8]) -> Result<u32, NumberFault>
    ensures { result ≡ read_number token.now }
{
    match token {
        [b'0', b'x', digits @ ..] => read_digits(digits, 16),
        _ => read_digits(token, 10),
    }
}

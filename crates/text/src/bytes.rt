// Bytes: two hexadecimal digits each with nothing between, or `-` for none.
ghost use Rattle.std.specs.Prelude.{◌≡◌, IfOk, vec_items};
ghost use Rattle.std.specs.Char.{is_digit};
ghost use Rattle.std.specs.List.{prefix_len};
ghost use Rattle.std.specs.Option.{option_map};
ghost use Rattle.text.specs.Numbers.{read_pairs, read_bytes};

use hex::FromHexError;
use std::alloc::{AllocError, Global};

// How many hexadecimal digits stand at the front.
fn leading_digits(token: &[u8]) -> usize
    ensures { result ≡ prefix_len (λ b. is_digit b 16) token.now }
{
    token
        .iter()
        .take_while(|b| char::from(**b).is_digit(16))
        .count()
}

// The bytes that pairs of hexadecimal digits write. Memory is asked for only where the token is pairs of digits.
fn read_pairs(heap: Global, token: &[u8]) -> Result<Option<Vec<u8>>, AllocError>
    ensures { IfOk result (λ o. option_map vec_items o ≡ read_pairs token.now) }
{
    if token.len() % 2 != 0 || leading_digits(token) < token.len() {
        return Ok(None);
    }
    match hex::decode(heap, token) {
        Ok(bytes) => Ok(Some(bytes)),
        Err(error) if error == FromHexError::OutOfMemory => Err(AllocError),
        Err(_) => Ok(None),
    }
}

/// The bytes that a token writes. None where it is neither pairs of hexadecimal digits nor `-`.
pub fn read_bytes(heap: Global, token: &[u8]) -> Result<Option<Vec<u8>>, AllocError>
    ensures { IfOk result (λ o. option_map vec_items o ≡ read_bytes token.now) }
{
    match token {
        b"-" => Ok(Some(Vec::new(heap))),
        _ => read_pairs(heap, token),
    }
}

// The memory and the outlet that a line sets up for the next `make`.
ghost use Rattle.console.specs.Buffers.{memory_value, outlet_value};
ghost use Rattle.console.specs.Parsing.{memory_of, zeros_of, outlet_of};
ghost use Rattle.console.specs.Reasons.{ParsesAs};

use crate::buffers::{MemoryBuffer, OutletBuffer};
use crate::reason::{ParseError, Reason};
use crate::words::Words;
use std::alloc::Global;

// The buffer that the words after `memory` say.
pub(crate) fn memory_buffer(heap: Global, mut words: Words) -> Result<MemoryBuffer, ParseError>
    ensures { ParsesAs memory_value result (memory_of words.entry) }
{
    match words.name() {
        Some("words") => Ok(MemoryBuffer::Words(words.numbers(heap)?)),
        Some("bytes") => {
            let bytes = words.bytes(heap)?;
            Ok(words.end(MemoryBuffer::Bytes(bytes))?)
        }
        _ => Err(ParseError::NotUnderstood(Reason::UnknownCommand)),
    }
}

// So many zero bytes as the only word says.
fn zeros(heap: Global, mut words: Words) -> Result<OutletBuffer, ParseError>
    ensures { ParsesAs outlet_value result (zeros_of words.entry) }
{
    let size = words.times()?;
    words.end(())?;
    Ok(OutletBuffer::Bytes(vec![in heap; 0; size]?))
}

// The buffer that the words after `outlet` say.
pub(crate) fn outlet_buffer(heap: Global, mut words: Words) -> Result<OutletBuffer, ParseError>
    ensures { ParsesAs outlet_value result (outlet_of words.entry) }
{
    match words.name() {
        Some("store") => Ok(words.end(OutletBuffer::Store)?),
        Some("bytes") => zeros(heap, words),
        _ => Err(ParseError::NotUnderstood(Reason::UnknownCommand)),
    }
}

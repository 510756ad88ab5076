// The commands on programs and packed words, which need no engine.
ghost use Rattle.std.specs.Prelude.{◌≡◌, IfOk, vec_items};
ghost use Rattle.console.specs.Parsing.{be_bytes, entry_of, program_of, program_bytes_of, one_of, image_of};
ghost use Rattle.console.specs.Reasons.{ParsesAs};
ghost use Rattle.console.specs.Values.{packed_value};
ghost use Rattle.console.specs.Words.{others};

use crate::kind::Kind;
use crate::reason::{ParseError, Reason};
use crate::words::Words;
use std::alloc::{AllocError, Global};

/// A command on programs and packed words.
#[derive(Drop)]
pub enum PackedCommand {
    // reads a program over the bytes
    Program(Vec<u8>),
    // lists the accepted program
    List,
    // unpacks one entry alone
    One(Kind, Vec<u8>),
    // reads a packed list over the bytes
    Image(Kind, Vec<u8>),
}

// Numbers as bytes, four each, most significant first.
fn to_be_bytes(heap: Global, numbers: &[u32]) -> Result<Vec<u8>, AllocError>
    ensures { IfOk result (λ v. v.items ≡ be_bytes numbers.now) }
{
    let mut bytes = Vec::new(heap);
    for number in numbers {
        bytes.extend_from_slice(&number.to_be_bytes())?;
    }
    Ok(bytes)
}

// The bytes of one packed entry: a word, or five bytes for what was sent.
fn entry_bytes(heap: Global, kind: Kind, words: &mut Words) -> Result<Vec<u8>, ParseError>
    ensures value { ParsesAs vec_items result (entry_of kind words.old) }
    ensures after { words.new ≡ others words.old }
{
    match kind {
        Kind::Instruction | Kind::Entry => {
            let number = words.number()?;
            Ok(Vec::from_slice(heap, &number.to_be_bytes())?)
        }
        Kind::Sent => {
            let bytes = words.bytes(heap)?;
            if bytes.len() != 5 {
                return Err(ParseError::NotUnderstood(Reason::NotFiveBytes));
            }
            Ok(bytes)
        }
    }
}

impl PackedCommand {
    // The program of the words that are left.
    pub(crate) fn program(heap: Global, words: Words) -> Result<PackedCommand, ParseError>
        ensures { ParsesAs packed_value result (program_of words.entry) }
    {
        let numbers = words.numbers(heap)?;
        Ok(PackedCommand::Program(to_be_bytes(heap, numbers.as_slice())?))
    }

    // The program of some bytes, and nothing after them.
    pub(crate) fn program_bytes(heap: Global, mut words: Words) -> Result<PackedCommand, ParseError>
        ensures { ParsesAs packed_value result (program_bytes_of words.entry) }
    {
        let bytes = words.bytes(heap)?;
        Ok(words.end(PackedCommand::Program(bytes))?)
    }

    // One entry of a kind, and nothing after it.
    pub(crate) fn one(
        heap: Global,
        kind: Kind,
        mut words: Words,
    ) -> Result<PackedCommand, ParseError>
        ensures { ParsesAs packed_value result (one_of kind words.entry) }
    {
        let bytes = entry_bytes(heap, kind, &mut words)?;
        Ok(words.end(PackedCommand::One(kind, bytes))?)
    }

    // A kind and some bytes, and nothing after them.
    pub(crate) fn image(heap: Global, mut words: Words) -> Result<PackedCommand, ParseError>
        ensures { ParsesAs packed_value result (image_of words.entry) }
    {
        let word = words.word()?;
        let kind = Kind::named(word).ok_or(Reason::UnknownKind)?;
        let bytes = words.bytes(heap)?;
        Ok(words.end(PackedCommand::Image(kind, bytes))?)
    }
}

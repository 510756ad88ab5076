// The words of a line, taken from left to right.
ghost use Rattle.std.specs.Prelude.{◌≡◌, ℕ, List, Some, IfSome, IsSome, IsAscii, vec_items};
ghost use Rattle.std.specs.Option.{option_map};
ghost use Rattle.std.specs.Result.{result_map_both as mapped_ok};
ghost use Rattle.console.specs.Reasons.{ParsesAs};
ghost use Rattle.console.specs.Words.{words_of, first, others, word_of, number_of, times_of, bytes_of, numbers_of, ended};

use crate::reason::{ParseError, Reason};
use std::alloc::Global;
use std::marker::Model;
use text::bytes::read_bytes;
use text::line::next_token;
use text::number::read_number;

// The most steps, turns, bytes or places that one command asks for.
const MOST_TIMES: u32 = 65_536;

// The word as a text to be compared with names. None where it is no text; every name is one.
pub(crate) fn as_name(word: &[u8]) -> Option<&str>
    ensures known { IfSome result (λ text. text.now ≡ word.now) }
    ensures ascii { IsAscii word.now → IsSome result }
{
    std::str::from_utf8(word).ok()
}

// The words of a line that are left. Seen as their list.
#[derive(Drop)]
pub(crate) struct Words<'a> {
    rest: &'a [u8],
}

impl<'a> Model for Words<'a> {
    ghost Value = { List (List ℕ) };

    ghost view = { λ words. words_of words.rest.now };
}

// The words, one after another.
impl<'a> Iterator for Words<'a> {
    ghost use Rattle.std.specs.Iterator.{item_count};
    ghost use Rattle.console.specs.Words.{GivesWord};

    type Item = &'a [u8];

    ghost next_gives = { λ before word after. GivesWord before (option_map (λ x. x.now) word) after };

    ghost remaining = { item_count (λ words. words) };

    fn next(&mut self) -> Option<&'a [u8]> {
        let (token, rest) = next_token(self.rest)?;
        self.rest = rest;
        Some(token)
    }
}

impl<'a> Words<'a> {
    // The words of a line without its remark.
    pub(crate) fn new(text: &'a [u8]) -> Words<'a>
        ensures { result ≡ words_of text.now }
    {
        Words { rest: text }
    }

    // The next word as a text to be compared with names.
    pub(crate) fn name(&mut self) -> Option<&'a str>
        ensures known { IfSome result (λ text. first self.old ≡ Some text.now) }
        ensures ascii { IfSome (first self.old) (λ word. IsAscii word → IsSome result) }
        ensures after { self.new ≡ others self.old }
    {
        as_name(self.next()?)
    }

    // The next word, which has to be there.
    pub(crate) fn word(&mut self) -> Result<&'a [u8], Reason>
        ensures value { mapped_ok (λ x. x.now) (λ reason. reason) result ≡ word_of self.old }
        ensures after { self.new ≡ others self.old }
    {
        self.next().ok_or(Reason::MissingWord)
    }

    #[tactic(auto, unfolding(crate::specs::Words::number_of))]
    pub(crate) fn number(&mut self) -> Result<u32, Reason>
        ensures value { result ≡ number_of self.old }
        ensures after { self.new ≡ others self.old }
    {
        let word = self.word()?;
        Ok(read_number(word)?)
    }

    // A core's number, an address or a place.
    pub(crate) fn place(&mut self) -> Result<usize, Reason>
        ensures value { result ≡ number_of self.old }
        ensures after { self.new ≡ others self.old }
    {
        Ok(self.number()? as usize)
    }

    // How many steps, turns, bytes or places a command asks for.
    #[tactic(auto, unfolding(crate::specs::Words::times_of))]
    pub(crate) fn times(&mut self) -> Result<usize, Reason>
        ensures value { result ≡ times_of self.old }
        ensures after { self.new ≡ others self.old }
    {
        let number = self.number()?;
        if number > MOST_TIMES {
            return Err(Reason::NumberTooLarge);
        }
        Ok(number as usize)
    }

    #[tactic(auto, unfolding(crate::specs::Words::bytes_of))]
    pub(crate) fn bytes(&mut self, heap: Global) -> Result<Vec<u8>, ParseError>
        ensures value { ParsesAs vec_items result (bytes_of self.old) }
        ensures after { self.new ≡ others self.old }
    {
        let word = self.word()?;
        Ok(read_bytes(heap, word)?.ok_or(Reason::NoBytes)?)
    }

    // All words that are left, as numbers.
    pub(crate) fn numbers(self, heap: Global) -> Result<Vec<u32>, ParseError>
        ensures { ParsesAs vec_items result (numbers_of self.entry) }
    {
        let mut numbers = Vec::new(heap);
        for word in self {
            numbers.push(read_number(word).map_err(Reason::from)?)?;
        }
        Ok(numbers)
    }

    // The value, where no word is left.
    pub(crate) fn end<T: Drop>(mut self, value: T) -> Result<T, Reason>
        ensures { result ≡ ended self.entry value }
    {
        match self.next() {
            None => Ok(value),
            Some(_) => Err(Reason::ExtraWord),
        }
    }
}

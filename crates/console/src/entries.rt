// Packed entries of each kind.
ghost use Rattle.std.specs.Prelude.{◌≡◌, ◌/◌, ◌%◌, length, IfOk, string_bytes};
ghost use Rattle.console.specs.ReplyTexts.{kind_bytes, reply_at};

use crate::kind::Kind;
use crate::replies::{instruction_reply, record_reply, sent_reply};
use codecs::packed_entry::PackedEntry;
use codecs::packed_list;
use formats::entry::{RecordEntry, SentEntry};
use formats::instruction::Instruction;
use std::alloc::{AllocError, Global};

// Bytes as a packed list of entries of a kind.
#[derive(Clone, Copy, PartialEq, Eq, Debug)]
pub(crate) struct Image<'a> {
    kind: Kind,
    bytes: &'a [u8],
}

impl<'a> Image<'a> {
    pub(crate) fn new(kind: Kind, bytes: &'a [u8]) -> Image<'a>
        ensures kind { result.kind ≡ kind }
        ensures bytes { result.bytes.now ≡ bytes.now }
    {
        Image { kind, bytes }
    }

    // How many bytes an entry has.
    fn size(self) -> usize
        ensures { result ≡ kind_bytes self.entry.kind }
    {
        match self.kind {
            Kind::Instruction => Instruction::BYTES,
            Kind::Entry => RecordEntry::BYTES,
            Kind::Sent => SentEntry::BYTES,
        }
    }

    // How many whole entries there are.
    pub(crate) fn count(self) -> usize
        ensures { result ≡ length self.entry.bytes.now / kind_bytes self.entry.kind }
    {
        self.bytes.len() / self.size()
    }

    // How many bytes are left after the whole entries.
    pub(crate) fn spare(self) -> usize
        ensures { result ≡ length self.entry.bytes.now % kind_bytes self.entry.kind }
    {
        self.bytes.len() % self.size()
    }

    // The reply for the entry at a place.
    pub(crate) fn reply_at(self, heap: Global, place: usize) -> Result<String, AllocError>
        ensures { IfOk result (λ s. string_bytes s ≡ reply_at self.entry.kind self.entry.bytes.now place) }
    {
        match self.kind {
            Kind::Instruction => instruction_reply(heap, packed_list::get(self.bytes, place)),
            Kind::Entry => record_reply(heap, packed_list::get(self.bytes, place)),
            Kind::Sent => sent_reply(heap, packed_list::get(self.bytes, place)),
        }
    }
}

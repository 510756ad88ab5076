// The packed form of a record entry: one word, most significant byte first.
ghost use Rattle.std.specs.Prelude.{◌≡◌};
ghost use Rattle.formats.specs.Records.{record_word, word_record, record_bytes, bytes_record};
ghost use Rattle.formats.proofs.Bytes.{bytes_sized, again_from, back_from};
ghost use Rattle.formats.proofs.Records.{word_fits, word_again, word_back};
ghost use Rattle.std.proofs.Common.{rules};

use crate::codec::truncated::truncated;
use crate::packed_entry::PackedEntry;
use formats::entry::{Mark, RecordEntry};
use formats::refusal::EntryFault;

// The entry's word: core 3 bits, mark 2, zero 11, count 16, most significant first.
fn encode(entry: RecordEntry) -> u32
    ensures { result ≡ record_word entry }
{
    entry.core.value() * 536870912
        + u32::from(entry.mark.number()) * 134217728
        + entry.count.value()
}

// What a word unpacks to.
fn decode(word: u32) -> Result<RecordEntry, EntryFault>
    ensures { result ≡ word_record word }
{
    let mark = Mark::try_from(word / 134217728 % 4)?;
    let spare = word / 65536 % 2048;
    let count = word % 65536;
    if (spare == 0) & (count <= 4096) {
        Ok(RecordEntry {
            core: truncated(word / 536870912),
            mark,
            count: truncated(count),
        })
    } else {
        Err(EntryFault::OutOfRange)
    }
}

impl PackedEntry for RecordEntry {
    type Fault = EntryFault;

    const BYTES: usize = 4;

    ghost width = { 4 };

    ghost packed = { record_bytes };

    ghost unpacked = { bytes_record };

    ghost some = { Prim.search rules };

    ghost few = { Prim.search rules };

    ghost sized = { λ e. bytes_sized 4 (record_word e) };

    ghost again = { again_from 4 record_word word_record word_fits word_again };

    ghost back = { back_from 4 record_word word_record word_back };

    fn size() -> usize {
        Self::BYTES
    }

    fn pack(self) -> u64 {
        u64::from(encode(self))
    }

    fn unpack(code: u64) -> Result<RecordEntry, EntryFault> {
        decode((code % 4294967296) as u32)
    }
}

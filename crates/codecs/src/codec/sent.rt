// The packed form of an outlet entry: five bytes, the channel and then the word, most significant byte first.
ghost use Rattle.formats.specs.Sents.{sent_code, sent_bytes, bytes_sent, code_sent};
ghost use Rattle.formats.proofs.Bytes.{bytes_sized, again_from, back_from};
ghost use Rattle.formats.proofs.Sents.{code_fits, code_again, code_back};
ghost use Rattle.std.proofs.Common.{rules};

use crate::packed_entry::PackedEntry;
use formats::entry::SentEntry;
use std::convert::Infallible;

impl PackedEntry for SentEntry {
    type Fault = Infallible;

    const BYTES: usize = 5;

    ghost width = { 5 };

    ghost packed = { sent_bytes };

    ghost unpacked = { bytes_sent };

    ghost some = { Prim.search rules };

    ghost few = { Prim.search rules };

    ghost sized = { λ e. bytes_sized 5 (sent_code e) };

    ghost again = { again_from 5 sent_code code_sent code_fits code_again };

    ghost back = { back_from 5 sent_code code_sent code_back };

    fn size() -> usize {
        Self::BYTES
    }

    fn pack(self) -> u64 {
        let [a, b, c, d, e] = <[u8; 5]>::from(self);
        u64::from_be_bytes([0, 0, 0, a, b, c, d, e])
    }

    fn unpack(code: u64) -> Result<SentEntry, Infallible> {
        let [_, _, _, a, b, c, d, e] = code.to_be_bytes();
        Ok(SentEntry::from([a, b, c, d, e]))
    }
}

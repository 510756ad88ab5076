// An outlet entry and its five bytes: the channel, and then the word, most significant byte first.
ghost use Rattle.std.specs.Prelude.{◌≡◌};
ghost use Rattle.formats.specs.Bytes.{spelled};
ghost use Rattle.formats.specs.Sents.{sent_of, sent_bytes};

use crate::below::Channel;
use crate::entry::SentEntry;

impl From<SentEntry> for [u8; 5] {
    ghost from_gives = { λ e bytes. bytes ≡ sent_bytes e };

    fn from(value: SentEntry) -> [u8; 5] {
        let [a, b, c, d] = value.word.to_be_bytes();
        [value.channel.value() as u8, a, b, c, d]
    }
}

impl From<[u8; 5]> for SentEntry {
    ghost from_gives = { λ bytes e. e ≡ sent_of (spelled bytes) };

    fn from(value: [u8; 5]) -> SentEntry {
        let [channel, a, b, c, d] = value;
        SentEntry {
            channel: Channel::new(u32::from(channel)).unwrap(),
            word: u32::from_be_bytes([a, b, c, d]),
        }
    }
}

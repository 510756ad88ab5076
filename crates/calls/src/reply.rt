// A reply as eight bytes: what was asked, the refusal, the answer, the fault, and a word.
ghost use Rattle.std.specs.Prelude.{◌≡◌};
ghost use Rattle.calls.specs.Kinds.{kind_number};
ghost use Rattle.calls.specs.Replies.{asked_number, entry, reply_with, part_of, word_part, sent_part, reply_bytes, fault_bytes};

use crate::call::CallFault;
use crate::kind::Kind;
use formats::answer::Answer;
use formats::entry::SentEntry;
use formats::refusal::Refusal;
use model::call::Reply;

// What a reply says of a call that was not refused.
#[derive(Clone, Copy, PartialEq, Eq, Default, Debug)]
struct Part {
    answer: u8,
    fault: u8,
    word: u32,
}

impl Part {
    // Of a word, no more than the word.
    fn word(word: u32) -> Part
        ensures { result ≡ word_part word }
    {
        Part {
            word,
            ..Part::default()
        }
    }
}

impl From<Answer> for Part {
    ghost from_gives = { λ a p. p ≡ part_of a };

    fn from(value: Answer) -> Part {
        let number = value.number();
        match value {
            Answer::Faulted { fault, pc } => Part {
                answer: number,
                fault: fault.number(),
                word: (pc % 4294967296) as u32,
            },
            _ => Part {
                answer: number,
                ..Part::default()
            },
        }
    }
}

impl From<SentEntry> for Part {
    ghost from_gives = { λ e p. p ≡ sent_part e };

    fn from(value: SentEntry) -> Part {
        Part {
            // The channel, which stands in the place of an answer.
            answer: value.channel.value() as u8,
            word: value.word,
            ..Part::default()
        }
    }
}

// The eight bytes, by place. What was asked is a step or a turn, another call, or no call.
fn eight(asked: Option<Kind>, refusal: u8, part: Part) -> [u8; 8]
    ensures { result ≡ entry (asked_number asked) refusal part.answer part.fault part.word }
{
    let asked = asked.map_or(0, |kind| kind as u8);
    let [a, b, c, d] = part.word.to_be_bytes();
    [asked, refusal, part.answer, part.fault, a, b, c, d]
}

// The eight bytes of what a call answers.
fn entry<R: Refusal + Drop>(kind: Kind, res: Result<Part, R>) -> [u8; 8]
    ensures { result ≡ reply_with R.Refusal.number (kind_number kind) (λ p. p) res }
{
    match res {
        Ok(part) => eight(Some(kind), 0, part),
        Err(refusal) => eight(Some(kind), refusal.number(), Part::default()),
    }
}

/// The eight bytes of a reply.
pub fn reply_bytes(reply: Reply) -> [u8; 8]
    ensures { result ≡ reply_bytes reply }
{
    match reply {
        Reply::Stepped(res) => entry(Kind::Step, res.map(Part::from)),
        Reply::Cleared(res) => entry(Kind::Clear, res.map(|()| Part::default())),
        Reply::Held(res) => entry(Kind::Hold, res.map(|()| Part::default())),
        Reply::Word(res) => entry(Kind::Read, res.map(Part::word)),
        Reply::GivenBack(res) => entry(Kind::GiveBack, res.map(|()| Part::default())),
        Reply::Taken(res) => entry(Kind::Take, res.map(Part::from)),
    }
}

/// The eight bytes that answer four bytes that are no call.
pub fn fault_bytes(fault: CallFault) -> [u8; 8]
    ensures { result ≡ fault_bytes fault }
{
    eight(None, fault.number(), Part::default())
}

// An answer as a word, and whether bytes are whole words with room for their answers. No public function has a
// `requires`, and nothing is assumed.
#![tactic(auto)]

ghost use Rattle.std.specs.Prelude.{ℕ, Ok, ◌≡◌};
ghost use Rattle.lists.specs.Bytes.{count_refusal};
ghost use Rattle.answers.specs.Refused.{error_number, number_in, word_by};
ghost use Rattle.rules.specs.Answers as ten;
ghost use Rattle.rules.specs.Step.{refused_word, word_of};

use line::numbers::{
    KIND_REFUSED, KIND_TAKEN, KIND_VALUE, KIND_WRITTEN, REFUSED_BYTE_COUNT, REFUSED_SHORT_LIST,
};
use rules::answer::{Refusal, Reply};
use std::error::Error;
use std::fmt;

// How many bytes spell a word.
const WORD_BYTES: usize = 4;

// Why a run over bytes is refused, and nothing written.
#[derive(Clone, Copy, Debug, PartialEq, Eq)]
pub enum ListError {
    ByteCount,
    ShortList,
}

impl ListError {
    // The number that a host is given.
    pub fn number(self) -> u32
        ensures { result ≡ error_number self }
    {
        match self {
            ListError::ByteCount => u32::from(REFUSED_BYTE_COUNT),
            ListError::ShortList => u32::from(REFUSED_SHORT_LIST),
        }
    }
}

impl fmt::Display for ListError {
    fn fmt<W: fmt::Write>(&self, f: &mut fmt::Formatter<W>) -> fmt::Result {
        f.write_str(match self {
            ListError::ByteCount => "the bytes are no whole words",
            ListError::ShortList => "the list for the answers is too short",
        })
    }
}

impl Error for ListError {}

// What a refusal is told by: one of the ten, or any number itself.
pub trait Numbered: Copy {
    ghost number_of: { Self → ℕ };

    fn number(self) -> u8
        ensures { result ≡ number_of self };
}

impl Numbered for Refusal {
    ghost number_of = { ten.number_of };

    fn number(self) -> u8 {
        Refusal::number(self)
    }
}

impl Numbered for u8 {
    ghost number_of = { λ n. n };

    fn number(self) -> u8 {
        self
    }
}

#[tactic(auto, unfolding(rules::specs::Step::word_of))]
fn reply_word(reply: Reply) -> u32
    ensures { result ≡ word_of (Ok reply) }
{
    match reply {
        Reply::Taken(d) => KIND_TAKEN * 0x1000_0000 + d as u32 % 4 * 256,
        Reply::Written(d) => KIND_WRITTEN * 0x1000_0000 + d as u32 % 4 * 256,
        Reply::Read(v, d) => KIND_VALUE * 0x1000_0000 + d as u32 % 4 * 256 + v as u32 % 256,
    }
}

fn number_word(number: u8) -> u32
    ensures { result ≡ refused_word number }
{
    KIND_REFUSED * 0x1000_0000 + number as u32 % 256
}

// "Answers: 8 slot taken, 9 written, 10 read (bits 7-0 value), 15 refused (bits 7-0 number). Kinds 8 to 10 carry in
// bits 9-8 what the unit drives in the next slot".
pub fn answer_word<R: Numbered>(answer: Result<Reply, R>) -> u32
    ensures { result ≡ word_by R.number_of answer }
{
    match answer {
        Ok(reply) => reply_word(reply),
        Err(refusal) => number_word(refusal.number()),
    }
}

// "15 refused (bits 7-0 number)", of any number.
pub fn refused_word(number: u8) -> u32
    ensures { result ≡ refused_word number }
{
    answer_word(Err(number))
}

// Whether a run over so many bytes of words, and so many for answers, can be.
#[tactic(auto, unfolding(lists::specs::Bytes::count_refusal))]
pub fn check_bytes(words: usize, answers: usize) -> Result<(), ListError>
    ensures { number_in result ≡ count_refusal words answers }
{
    // "The lowest number wins": the count comes before the answer list.
    if words % WORD_BYTES != 0 {
        return Err(ListError::ByteCount);
    }
    if answers < words {
        return Err(ListError::ShortList);
    }
    Ok(())
}

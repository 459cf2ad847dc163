// Words as a program reads and writes them: four bytes each, the lowest first; and what it says where an input does not
// end with the last word that is read. No public function has a `requires`, and nothing is assumed.
#![tactic(auto)]

ghost use Rattle.std.specs.Prelude.{◌≡◌, ◌++◌, ◌+◌, ◌*◌, ◌/◌, ◌<◌, min, drop, length};
ghost use Rattle.words.specs.Left.{left_over_of};
ghost use Rattle.words.specs.Words.{bytes_of, word_at, words_of};

use std::fmt;

// How many bytes spell a word.
pub const WORD_BYTES: usize = 4;

fn word_at(bytes: &[u8], place: usize) -> u32
    requires { place * 4 + 3 < length bytes.now }
    ensures { result ≡ word_at bytes.now place }
{
    let at = place * WORD_BYTES;
    u32::from_le_bytes([bytes[at], bytes[at + 1], bytes[at + 2], bytes[at + 3]])
}

// The words that bytes spell go to the front of the list, as many as it has room for; the number says how many. Places
// past them keep their contents.
pub fn put_words(input: &[u8], words: &mut [u32]) -> usize
    ensures count { result ≡ min (length input.now / 4) (length words.old) }
    ensures written { words.new ≡ words_of input.now result ++ drop result words.old }
{
    let count = words.len().min(input.len() / WORD_BYTES);
    for i in 0..count {
        words[i] = word_at(input, i);
    }
    count
}

// The bytes of words go to the front of the list, of as many words as it has room for; the number says how many. Places
// past them keep their contents.
pub fn put_bytes(words: &[u32], bytes: &mut [u8]) -> usize
    ensures count { result ≡ min (length words.now) (length bytes.old / 4) }
    ensures written { bytes.new ≡ bytes_of words.now (result * 4) ++ drop (result * 4) bytes.old }
{
    let count = words.len().min(bytes.len() / WORD_BYTES);
    for i in 0..count {
        let at = i * WORD_BYTES;
        bytes[at..at + WORD_BYTES].copy_from_slice(&words[i].to_le_bytes());
    }
    count
}

// What is left over of an input, all whose words are read up to a most: more than these, or 1 to 3 bytes of a word.
#[derive(Clone, Copy, Debug, PartialEq, Eq)]
pub enum LeftOver {
    Short,
    More,
}

impl fmt::Display for LeftOver {
    fn fmt<W: fmt::Write>(&self, f: &mut fmt::Formatter<W>) -> fmt::Result {
        f.write_str(match self {
            LeftOver::Short => "short",
            LeftOver::More => "more",
        })
    }
}

// What is left over of so many bytes where at most so many are read, if anything is: `More` if any byte follows the
// last that is read, else `Short` where they are no whole words.
#[tactic(auto, unfolding(crate::specs::Left::left_over_of))]
pub fn left_over(bytes: usize, most: usize) -> Option<LeftOver>
    ensures { result ≡ left_over_of most bytes }
{
    if most < bytes {
        Some(LeftOver::More)
    } else if bytes % WORD_BYTES != 0 {
        Some(LeftOver::Short)
    } else {
        None
    }
}

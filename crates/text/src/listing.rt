// The whole listing of an input: the header, a line for each word, the last line.
ghost use Rattle.std.specs.Prelude.{◌≡◌, ◌++◌, ◌+◌, ◌*◌, ◌<◌, ◌≤◌, length, drop, get_or};
ghost use Rattle.words.specs.Words.{word_at};
ghost use Rattle.text.specs.Listing.{listed_of, words_listed};
ghost use Rattle.text.specs.Writing.{LinesIn, pasted};

use crate::hex::{LINE_BYTES, line};
use crate::last::{MOST_BYTES, last_text};
use words::{WORD_BYTES, left_over};

const HEADER: &[u8] = b"word answer\n";

// Room for every listing: 12 bytes of header, 18 for each of 4,096 words, and 6 of `short`, the longer last line.
pub const LISTING_BYTES: usize = 73746;

fn byte_at(bytes: &[u8], at: usize) -> u8
    ensures { result ≡ get_or bytes.now at 0 }
{
    bytes.get(at).copied().unwrap_or(0)
}

// The word at a place of a list of little-endian words; a byte past the list's end counts as 0.
fn word_at(bytes: &[u8], place: usize) -> u32
    requires { place < 4096 }
    ensures { result ≡ word_at bytes.now place }
{
    let at = place * WORD_BYTES;
    u32::from_le_bytes([
        byte_at(bytes, at),
        byte_at(bytes, at + 1),
        byte_at(bytes, at + 2),
        byte_at(bytes, at + 3),
    ])
}

// The same where the word is whole, without a test of each byte: that costs a third of a line.
fn whole_word_at(bytes: &[u8], place: usize) -> u32
    requires { place * 4 + 3 < length bytes.now }
    ensures { result ≡ word_at bytes.now place }
{
    let at = place * WORD_BYTES;
    u32::from_le_bytes([bytes[at], bytes[at + 1], bytes[at + 2], bytes[at + 3]])
}

// How many words of an input are listed.
fn words_listed(bytes: usize) -> usize
    ensures { (result ≡ words_listed bytes) × (result ≤ 4096) × (result * 4 ≤ bytes) }
{
    bytes.min(MOST_BYTES) / WORD_BYTES
}

// Writes a piece into the text, from a place on. The place of each is known: no writer carries one along. Unlike `put`
// of `pieces` it has room, and cuts nothing off.
fn put(text: &mut [u8], at: usize, piece: &[u8])
    requires { at + length piece.now ≤ length text.old }
    ensures { text.new ≡ pasted text.old at piece.now }
{
    text[at..at + piece.len()].copy_from_slice(piece);
}

// The header and the lines go to the front of the text; the number says how long they are.
fn put_lines(input: &[u8], answers: &[u8], text: &mut [u8]) -> usize
    requires { 73746 ≤ length text.old }
    ensures lines_in { LinesIn input.now answers.now text.old result text.new }
    ensures upper_bound { result ≤ 73740 }
{
    put(text, 0, HEADER);
    let count = words_listed(input.len());
    for i in 0..count {
        let listed = line(whole_word_at(input, i), word_at(answers, i));
        put(text, HEADER.len() + i * LINE_BYTES, &listed);
    }
    HEADER.len() + count * LINE_BYTES
}

// The listing of an input, whose words are answered by those of the second list, goes to the front of the text; the
// number says how long it is. The rest of the text stays as it was, and so does a text too short for the longest
// listing, whatever the input: nothing is written then, and the number is 0 as that of anything that is written.
#[tactic(auto, unfolding(crate::specs::Listing::listed_of))]
pub fn listing(input: &[u8], answers: &[u8], text: &mut [u8]) -> usize
    ensures count { result ≡ length (listed_of input.now answers.now (length text.old)) }
    ensures written { text.new ≡ listed_of input.now answers.now (length text.old)
        ++ drop result text.old }
    ensures within { result ≤ length text.old }
{
    if text.len() < LISTING_BYTES {
        return 0;
    }
    let at = put_lines(input, answers, text);
    let last = last_text(left_over(input.len(), MOST_BYTES));
    put(text, at, last);
    at + last.len()
}

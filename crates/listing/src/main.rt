// The program `listing`: it "reads standard input, little-endian words, at most 4,096, and prints a header, then word
// and answer in eight capital hexadecimal digits; a last line `more` if any byte follows the 4,096th word, else
// `short` for 1 to 3 bytes left over". What it prints is made by `listed`, whose contract says all of it.
#![tactic(auto)]

ghost use Rattle.std.specs.Prelude.{◌≡◌, ◌++◌, ◌≤◌, length, drop};
ghost use Rattle.listing.specs.Printed.{printed_of, whole_words};

use list_run::bytes::run_bytes;
use pieces::read_full;
use text::last::MOST_BYTES;
use text::listing::{LISTING_BYTES, listing};
use unit::step::Unit;
use words::WORD_BYTES;

// One byte more than is listed, so that a byte that follows is seen.
const INPUT_BYTES: usize = MOST_BYTES + 1;

// How many bytes of an input belong to the words that are listed.
fn whole_words(bytes: usize) -> usize
    ensures value { result ≡ whole_words bytes }
    ensures upper_bound { result ≤ bytes }
{
    let bytes = bytes.min(MOST_BYTES);
    bytes - bytes % WORD_BYTES
}

// The listing of an input goes to the front of the text, whose rest stays as it was; the number says how long it is.
#[tactic(auto, unfolding(crate::specs::Printed::printed_of))]
fn listed(input: &[u8], text: &mut [u8]) -> usize
    ensures count { result ≡ length (printed_of input.now (length text.old)) }
    ensures written { text.new ≡ printed_of input.now (length text.old) ++ drop result text.old }
    ensures within { result ≤ length text.old }
{
    let mut answers = [0u8; MOST_BYTES];
    let whole = &input[..whole_words(input.len())];
    // Never refused: the words are whole, and there is room for their answers.
    let _ = run_bytes(Unit::reset(), whole, &mut answers);
    listing(input, &answers, text)
}

// Where nobody reads what is printed, nothing is left to do.
fn print(rt: &impl Print, input: &[u8], text: &mut [u8]) {
    let count = listed(input, text);
    let _ = rt.write_all(&text[..count]);
}

fn main(rt: HostRuntime) {
    let mut input = [0u8; INPUT_BYTES];
    let mut text = [0u8; LISTING_BYTES];
    let count = read_full(&mut rt.stdin(), &mut input);
    print(&rt, &input[..count], &mut text);
}

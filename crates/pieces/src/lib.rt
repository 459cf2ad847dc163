// What programs share: writing into a text that is lent, one piece behind the other, as far as there is room; reading a
// decimal number; and what a program is given, its input and its arguments. No public function has a `requires`, and
// nothing is assumed.
#![tactic(auto)]

ghost use Rattle.std.specs.Prelude.{◌≡◌, min};
ghost use Rattle.pieces.specs.Decimal.{grown, number_of};
ghost use Rattle.pieces.specs.Pieces.{Put};

mod input;

pub use input::{argument, read_full};

// Kept, though `min` is the same: it is public, and two edits are refused by what it promises.
pub fn least(a: usize, b: usize) -> usize
    ensures { result ≡ min a b }
{
    a.min(b)
}

// Writes a piece into the text, from a place on and as far as there is room, and gives the place behind it.
pub fn put(text: &mut [u8], at: usize, piece: &[u8]) -> usize
    ensures { Put text.old at piece.now result text.new }
{
    if text.len() <= at {
        return at;
    }
    let count = piece.len().min(text.len() - at);
    text[at..at + count].copy_from_slice(&piece[..count]);
    at + count
}

// A number with a digit more, up to 65,535.
#[tactic(auto, unfolding(crate::specs::Decimal::grown))]
fn grown(n: u16, byte: u8) -> Option<u16>
    ensures { result ≡ grown n byte }
{
    match byte {
        b'0'..=b'9' => n.checked_mul(10)?.checked_add(u16::from(byte - b'0')),
        _ => None,
    }
}

// The number that a text says, up to 65,535, where it says one. Not by `parse`, which takes `+5` for one too.
pub fn number(text: &[u8]) -> Option<u16>
    ensures { result ≡ number_of text.now }
{
    if text.is_empty() {
        return None;
    }
    let mut n = 0;
    for byte in text {
        n = grown(n, *byte)?;
    }
    Some(n)
}

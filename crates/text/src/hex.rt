// A line of the listing: "word and answer in eight capital hexadecimal digits".
ghost use Rattle.std.specs.Prelude.{◌≡◌, length};
ghost use Rattle.text.specs.Hex.{digit_of, hex_of, line_of};

// How many digits show a word.
const DIGITS: usize = 8;

// Eight digits, a space, eight digits and the line's end.
pub const LINE_BYTES: usize = 18;

// The capital digit of a number's lowest four bits. Not by a formatter: every byte of a listing is promised, and no
// contract says what bytes one writes. A byte only at the end: that way several are worked out at a time.
fn digit(n: u32) -> u8
    ensures { result ≡ digit_of n }
{
    let low = n % 16;
    if low < 10 {
        (u32::from(b'0') + low) as u8
    } else {
        (u32::from(b'A') - 10 + low) as u8
    }
}

// The digits of a word, the highest first, go to a piece of eight bytes. No array of eight is handed out: it would be put
// together in a register, digit by digit, at twice the cost.
fn put_digits(word: u32, digits: &mut [u8])
    requires { length digits.old ≡ 8 }
    ensures { digits.new ≡ hex_of 8 word }
{
    for (place, shown) in digits.iter_mut().enumerate() {
        *shown = digit(word >> (28 - 4 * place));
    }
}

// The word, a space, the answer and the line's end.
pub(crate) fn line(word: u32, answer: u32) -> [u8; LINE_BYTES]
    ensures { result ≡ line_of word answer }
{
    let mut line = [b' '; LINE_BYTES];
    put_digits(word, &mut line[..DIGITS]);
    put_digits(answer, &mut line[DIGITS + 1..LINE_BYTES - 1]);
    line[LINE_BYTES - 1] = b'\n';
    line
}

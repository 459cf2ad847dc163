// The last line: "a last line `more` if any byte follows the 4,096th word, else `short` for 1 to 3 bytes left over".
ghost use Rattle.std.specs.Prelude.{◌≡◌, ◌≤◌, length};
ghost use Rattle.text.specs.Last.{last_text};

use words::LeftOver;

// Every word that is read is listed, up to this many bytes of input: 4,096 words.
pub const MOST_BYTES: usize = 16384;

// The last line by what is left over, with the line's end.
#[tactic(auto, unfolding(crate::specs::Last::last_text))]
pub fn last_text(left: Option<LeftOver>) -> &'static [u8]
    ensures value { result.now ≡ last_text left }
    ensures upper_bound { length result.now ≤ 6 }
{
    match left {
        Some(LeftOver::Short) => b"short\n",
        Some(LeftOver::More) => b"more\n",
        None => b"",
    }
}

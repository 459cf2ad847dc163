// The whole text, by what the reader said.
ghost use Rattle.std.specs.Prelude.{◌≡◌, ◌≤◌, length};
ghost use Rattle.pieces.specs.Pieces.{Put};
ghost use Rattle.iebus_dump.specs.Writing.{last_by, shown_by, text_by};

use crate::lines::put_lines;
use logs::LogError;
use pieces::put;
use text::last::last_text;
use words::left_over;

// The bytes of the words that are read.
const MOST_BYTES: usize = 65536;

// The last line, where a log was read so.
#[tactic(auto, unfolding(crate::specs::Writing::last_by))]
pub(crate) fn last_line(read: Result<usize, LogError>, bytes: usize) -> &'static [u8]
    ensures { result.now ≡ last_by read bytes }
{
    match read {
        Ok(_) => last_text(left_over(bytes, MOST_BYTES)),
        Err(_) => b"refused 16\n",
    }
}

// How many of so many words have their lines printed: none where the log was refused.
pub(crate) fn shown(read: Result<usize, LogError>, count: usize) -> usize
    ensures { (result ≡ shown_by read count) × (result ≤ count) }
{
    if read.is_ok() { count } else { 0 }
}

// The header, the lines of the slots, whose records stand in the second list, and a last line.
#[tactic(auto, unfolding(crate::specs::Writing::text_by))]
pub(crate) fn put_dump(text: &mut [u8], last: &[u8], slots: &[u32], records: &[u32]) -> usize
    requires { length slots.now ≤ 16384 }
    ensures { Put text.old 0 (text_by last.now slots.now records.now) result text.new }
{
    let header = b"start  from   to  bit control      length bytes\n";
    let at = put(text, 0, header);
    let at = put_lines(text, at, slots, records);
    put(text, at, last)
}

// The reader of line logs: it "belongs to no address", takes "the mode and a lent list of slot words and gives the
// number of frames and, in order, one record for each from its start". The public function has no `requires`, and
// nothing is assumed.
#![tactic(auto)]

mod ending;
mod entry;
mod head;
mod levels;
mod record;
mod text;
mod words;

ghost use Rattle.std.specs.Prelude.{◌≡◌, ◌++◌, ◌≤◌, drop, length};
ghost use Rattle.logs.specs.Frames.{frames_of};
ghost use Rattle.logs.specs.Log.{ReadLog};
ghost use Rattle.logs.specs.Relied.{Relied};
ghost use Rattle.logs.specs.Records.{records_of, words_of};

use crate::levels::{levels_end, next_start};
use crate::record::put_record;
use logs::{LogError, strays};

// Writes the record of every frame, one behind the other; the number says how many there are.
fn put_records(long: bool, slots: &[u32], records: &mut [u32]) -> usize
    requires { length slots.now ≤ length records.old }
    ensures value { result ≡ length (frames_of slots.now) }
    ensures records_after { records.new ≡ words_of (records_of long slots.now)
        ++ drop (length (words_of (records_of long slots.now))) records.old }
{
    let mut frames = 0;
    let mut next = 0;
    let mut before = None;
    let mut start = next_start(slots, 0);
    // by hand: `split` at the starts would read each level twice, and `next` and `before` would be kept all the same.
    // The next start is sought at the end of a turn: where the loop's test seeks it, an idle slot takes eight
    // instructions, and not five
    while let Some(at) = start {
        let end = levels_end(slots, at + 1);
        let entry = put_record(long, &slots[at + 1..end], records, next, before);
        next = entry.bytes + entry.acked();
        before = Some(entry);
        frames += 1;
        start = next_start(slots, end);
    }
    frames
}

// Reads a log. `long` is mode 1, with 32 attempts. The records go to the front of the list, one behind the other;
// places past them keep their contents, and so does the whole list where the log is refused.
pub fn read_log(long: bool, slots: &[u32], records: &mut [u32]) -> Result<usize, LogError>
    ensures whole { ReadLog long slots.now records.old result records.new }
    ensures relied { Relied long }
{
    if records.len() < slots.len() {
        return Err(LogError::ShortList);
    }
    if strays(slots) {
        return Err(LogError::NoSlot);
    }
    Ok(put_records(long, slots, records))
}

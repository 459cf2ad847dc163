// The record of one frame.
ghost use Rattle.std.specs.Prelude.{◌≡◌, ◌+◌, ◌<◌, ◌≤◌, length};
ghost use Rattle.line.specs.Choice.{pick};
ghost use Rattle.logs.specs.Frames.{Low};
ghost use Rattle.logs.specs.Data.{attempts_of};
ghost use Rattle.logs.specs.Fields.{given_in, header};
ghost use Rattle.logs.specs.Readings.{data_of};
ghost use Rattle.reader.specs.Entries.{EndsBy};
ghost use Rattle.reader.specs.Heads.{head_of};
ghost use Rattle.reader.specs.Texts.{Wrote, pasted};
ghost use Rattle.reader.specs.Records.{RecordPut, entry_with, first_with, front_of, front_words};

use crate::ending::Ending;
use crate::entry::{Entry, alike};
use crate::head::{Front, Head, head_of};
use crate::text::{Body, DATA_PLACE, put_text};
use crate::words::{ACKED_WEIGHT, AGAIN_WEIGHT, BIT_WEIGHT, LENGTH_WEIGHT, UNACKED_WEIGHT};
use line::numbers::attempts;

// How many attempts a frame makes at most: a broadcast one for each byte.
fn most_attempts(long: bool, broadcast: bool, bytes: u32) -> u32
    ensures { (result ≡ attempts_of long broadcast bytes) × (result ≤ 32) }
{
    let limit = u32::from(attempts(long));
    if broadcast { bytes.min(limit) } else { limit }
}

// Writes the ACKed bytes of a frame, if it came to its data, from a place of the records on.
fn put_data(long: bool, head: Head, levels: &[u32], records: &mut [u32], at: usize) -> Body
    requires low { Low levels.now × (head ≡ head_of levels.now) }
    requires levels_bound { at + length levels.now ≤ 44 + length records.old }
    ensures { Wrote (data_of long (given_in header levels.now) levels.now) at records.old result
        records.new }
{
    let none = Body {
        acked: 0,
        unacked: 0,
        ending: head.ending,
    };
    if levels.len() <= DATA_PLACE {
        return none;
    }
    match head.ending {
        Ending::BrokenData => {
            let broadcast = head.front.said / BIT_WEIGHT % 2 == 0;
            let bytes = head.front.said / LENGTH_WEIGHT;
            let most = most_attempts(long, broadcast, bytes);
            put_text(levels, broadcast, bytes, most, records, at)
        }
        _ => none,
    }
}

// The entry of a frame with this header and data, whose bytes stand there.
fn entry_of(head: Head, body: Body, bytes: usize) -> Entry
    requires { (head.front.said < 0x8_0000) × (body.acked ≤ 32) × (body.unacked ≤ 32) }
    ensures { result ≡ entry_with head body bytes }
{
    let front = Front {
        said: head.front.said + body.acked as u32 * ACKED_WEIGHT + body.unacked * UNACKED_WEIGHT,
        ..head.front
    };
    Entry { front, bytes }
}

fn first_word(said: u32, ending: Ending, again: bool) -> u32
    requires { said < 0x8000_0000 }
    ensures { result ≡ first_with said ending again }
{
    ending.number() + u32::from(again) * AGAIN_WEIGHT + said
}

// How many words stand before the bytes: the second is there where the master address is given.
fn front_words(given: u32) -> usize
    ensures { result ≡ front_words given }
{
    if given < 2 { 1 } else { 2 }
}

// Writes the words before the bytes.
fn put_front(records: &mut [u32], at: usize, front: Front, first: u32)
    requires { at + front_words front.given ≤ length records.old }
    ensures { records.new ≡ pasted records.old at (front_of front first) }
{
    records[at] = first;
    if 2 <= front.given {
        records[at + 1] = front.addresses;
    }
}

// Writes the record of a frame of these levels from a place on.
pub(crate) fn put_record(
    long: bool,
    levels: &[u32],
    records: &mut [u32],
    at: usize,
    before: Option<Entry>,
) -> Entry
    requires low { Low levels.now × (at + 1 + length levels.now ≤ length records.old) }
    requires before_bound { EndsBy before at }
    ensures { RecordPut long levels.now at before records.old result records.new }
{
    let head = head_of(levels);
    let bytes = at + front_words(head.front.given);
    let body = put_data(long, head, levels, records, bytes);
    let entry = entry_of(head, body, bytes);
    let again = alike(records, before, entry);
    let first = first_word(entry.front.said, body.ending, again);
    put_front(records, at, entry.front, first);
    entry
}

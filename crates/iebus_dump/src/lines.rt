// A line for each frame, by the words of its record.
//
// A text and the place in it stay two parameters: `Put`, the contract of whatever writes, is over both. A writer that
// holds them needs a lifetime and a `Model` of its own, and is no plainer, as each call of `put` stays one line.
ghost use Rattle.std.specs.Prelude.{◌≡◌, [], ◌++◌, ◌%◌, ◌<◌, ◌≤◌, length, get_or};
ghost use Rattle.iebus_dump.specs.Line.{bytes_column, ending_column, fields_of, mark_column};
ghost use Rattle.pieces.specs.Pieces.{Put};
ghost use Rattle.iebus_dump.specs.Writing.{acked_by, ahead_by, frame_by, lines_in, slot_line, used_by};

use crate::columns::{digit, ending, given, kind, length, mark, name, route};
use line::numbers::SLOT_START;
use pieces::put;

// The word at a place of a record, 0 past its end.
fn word(words: &[u32], at: usize) -> u32
    ensures { result ≡ get_or words.now at 0 }
{
    words.get(at).copied().unwrap_or(0)
}

// How many words of a record stand ahead of its bytes.
fn ahead(first: u32) -> usize
    ensures { (result ≡ ahead_by first) × (result ≤ 2) }
{
    if given(first % 0x10) < 2 { 1 } else { 2 }
}

fn acked(first: u32) -> usize
    ensures { (result ≡ acked_by first) × (result < 64) }
{
    (first / 0x8_0000 % 0x40) as usize
}

// The columns of the five fields.
#[tactic(auto, unfolding(crate::specs::Line::fields_of))]
fn put_fields(text: &mut [u8], at: usize, place: usize, first: u32, second: u32) -> usize
    requires { place < 16384 }
    ensures { Put text.old at (fields_of place (frame_by first second [])) result text.new }
{
    let fields = given(first % 0x10);
    let control = first / 0x40 % 0x10;
    let route = route(place as u32, fields, second % 0x1000, second / 0x1000);
    let at = put(text, at, &route);
    let at = put(text, at, &kind(fields, first / 0x20 % 2, control));
    let at = put(text, at, name(fields, control));
    put(text, at, &length(fields, first / 0x400 % 0x200))
}

fn put_bytes(text: &mut [u8], at: usize, bytes: &[u32]) -> usize
    ensures { Put text.old at (bytes_column bytes.now) result text.new }
{
    let mut end = at;
    for byte in bytes {
        end = put(
            text,
            end,
            &[b' ', digit(true, *byte / 16), digit(true, *byte)],
        );
    }
    end
}

// How the frame ended, the mark, and the end of the line.
fn put_end(text: &mut [u8], at: usize, first: u32) -> usize
    ensures { Put text.old at (ending_column (first % 0x10) ++ mark_column (frame_by first 0 []).again) result
        text.new }
{
    let at = put(text, at, ending(first % 0x10));
    put(text, at, mark(first))
}

// What is written for the word at a place: a line where it is a start.
#[tactic(auto, unfolding(crate::specs::Writing::slot_line))]
fn put_line(text: &mut [u8], at: usize, place: usize, slot: u32, words: &[u32]) -> usize
    requires { place < 16384 }
    ensures { Put text.old at (slot_line place slot words.now) result text.new }
{
    if slot != SLOT_START {
        return at;
    }
    let first = word(words, 0);
    let at = put_fields(text, at, place, first, word(words, 1));
    let from = ahead(first).min(words.len());
    let end = (from + acked(first)).min(words.len());
    let at = put_bytes(text, at, &words[from..end]);
    put_end(text, at, first)
}

// How many words are then done with.
#[tactic(auto, unfolding(crate::specs::Writing::used_by))]
fn used(slot: u32, words: &[u32]) -> usize
    ensures { (result ≡ used_by slot words.now) × (result < 66) }
{
    if slot != SLOT_START {
        return 0;
    }
    let first = word(words, 0);
    ahead(first) + acked(first)
}

pub(crate) fn put_lines(text: &mut [u8], at: usize, slots: &[u32], records: &[u32]) -> usize
    requires { length slots.now ≤ 16384 }
    ensures { Put text.old at (lines_in 0 slots.now records.now) result text.new }
{
    let mut end = at;
    let mut words = records;
    for (place, slot) in slots.iter().enumerate() {
        end = put_line(text, end, place, *slot, words);
        words = &words[used(*slot, words).min(words.len())..];
    }
    end
}

// The program `iebus_dump`: it reads the slot words of a line from standard input, 32 bits each, little-endian, and
// prints a line for each frame, as `candump` does for CAN. Mode 1 (32 attempts) where the first argument is `1`, else
// mode 0 (16). What it prints is made by `dumped`, whose contract says all of it.
//
// Only the first 16,384 words are read. A frame that goes on behind them is shown as cut there, and the last line is
// `more`; a log may be read on from that frame's start word. A log that is refused has neither `more` nor `short`. The
// status is 0 whatever the log is.
#![tactic(auto)]

ghost use Rattle.std.specs.Prelude.{◌≡◌, ◌++◌, ◌≤◌, length, drop};
ghost use Rattle.iebus_dump.specs.Dump.{dump_bytes, dump_of, whole_of};

mod columns;
mod lines;
mod whole;

use crate::whole::{last_line, put_dump, shown};
use pieces::read_full;
use reader::read_log;
use std::env::Env;
use words::put_words;

// At most so many words are read.
const MOST_WORDS: usize = 16384;

// One byte more, so that a byte that follows is seen.
const INPUT_BYTES: usize = 65537;

// Room for every dump: the header, 80 bytes for each word and the longer last line.
const DUMP_BYTES: usize = 1310774;

// The dump of an input goes to the front of the text, as far as there is room, and the rest of the text stays as it
// was; the number says how long it is. DUMP_BYTES are room for all of it.
#[tactic(auto, unfolding(crate::specs::Dump::dump_of))]
fn dumped(long: bool, input: &[u8], text: &mut [u8]) -> usize
    ensures count { result ≡ length (dump_of long input.now (length text.old)) }
    ensures written { text.new ≡ dump_of long input.now (length text.old)
        ++ drop result text.old }
    ensures within { result ≤ length text.old }
    ensures fits { length (whole_of long input.now) ≤ dump_bytes }
{
    let mut slots = [0u32; MOST_WORDS];
    let mut records = [0u32; MOST_WORDS];
    let count = put_words(input, &mut slots);
    let read = read_log(long, &slots[..count], &mut records);
    let last = last_line(read, input.len());
    let end = shown(read, count);
    put_dump(text, last, &slots[..end], &records)
}

// There is room for all of it. Where nobody reads what is printed, nothing is left to do.
fn print(rt: &impl Print, long: bool, input: &[u8], text: &mut [u8])
    requires { dump_bytes ≤ length text.old }
{
    let count = dumped(long, input, text);
    let _ = rt.write_all(&text[..count]);
}

// Mode 1 is asked for by the first argument `1`.
fn long_mode(rt: &impl Env) -> bool {
    let mut argument = [0u8; 2];
    let count = pieces::argument(rt, 1, &mut argument);
    (count == 1) & (argument[0] == b'1')
}

fn main(rt: HostRuntime) {
    let mut input = [0u8; INPUT_BYTES];
    let mut text = [0u8; DUMP_BYTES];
    let count = read_full(&mut rt.stdin(), &mut input);
    print(&rt, long_mode(&rt), &input[..count], &mut text);
}

// The program `iebus_load`: it reads the slot words of a line from standard input, 32 bits each, little-endian, and
// tells how full the line was: after every slot, how many of the latest slots are not idle. The first argument is how
// many are looked at, 1 to 4,096. It prints a summary or, where the second argument is `svg`, writes the figures as a
// plot. What it writes is made by `made`, whose contract says all of it.
//
// Only the first 65,536 slots are read. What there is to say besides goes to standard error: `refused 25` or `refused
// 16`, or `empty`, and then nothing is written; `more` where any byte follows the last slot that is read, `short` for 1
// to 3 bytes left over; or how to call the program. The status is 0 whatever the log is.
#![tactic(auto)]

ghost use Rattle.std.specs.Prelude.{◌≡◌, ◌≤◌, length};
ghost use Rattle.iebus_load.specs.Output.{Made, most_slots, text_bytes};

mod arguments;
mod forms;
mod output;
mod texts;

use crate::arguments::{Wanted, asked};
use crate::output::{Message, told};
use crate::texts::put_loaded;
use meter::load;
use pieces::{argument, read_full};
use std::env::{Env, FillError};
use words::put_words;

// At most so many slots are read.
const MOST_SLOTS: usize = 65536;

// One byte more than is read, so that a byte that follows is seen.
const INPUT_BYTES: usize = 262145;

// Room for every plot: what stands before the curve, nine bytes for each slot, what stands behind it.
const TEXT_BYTES: usize = 591069;

// A number has at most five digits; a longer argument is none.
const NUMBER_BYTES: usize = 5;

// How long the text is, and what is said. Not shared with `iebus_slots`: one of both would be a generic type, and is no
// plainer than two fields.
#[derive(Clone, Copy)]
struct Outcome {
    count: usize,
    message: Option<Message>,
}

// The same as `made`, with lists for the slots and the figures that are lent: their lengths are all that matters of
// them, and a proof that sees their contents takes several times as long.
fn made_in(
    wanted: Wanted,
    input: &[u8],
    slots: &mut [u32],
    figures: &mut [u32],
    text: &mut [u8],
) -> Outcome
    requires { (length slots.old ≡ most_slots) × (length figures.old ≡ most_slots) }
    ensures { Made wanted.view wanted.window input.now text.old result.count result.message text.new }
{
    let count = put_words(input, slots);
    let ended = load(wanted.window, &slots[..count], figures);
    Outcome {
        count: put_loaded(text, wanted, ended, &slots[..count], &figures[..count]),
        message: told(ended, input.len()),
    }
}

// The summary or the plot goes to the front of the text, as far as there is room, and the rest of the text stays as it
// was. TEXT_BYTES are room for all of it.
fn made(wanted: Wanted, input: &[u8], text: &mut [u8]) -> Outcome
    ensures { Made wanted.view wanted.window input.now text.old result.count result.message text.new }
{
    let mut slots = [0u32; MOST_SLOTS];
    let mut figures = [0u32; MOST_SLOTS];
    made_in(wanted, input, &mut slots, &mut figures, text)
}

// There is room for all of it. Where it cannot be written, nothing is left to do. Not shared with `iebus_slots`: a
// public function that only prints would have nothing to promise, and so no edit of it could be refused.
fn print(rt: &(impl Print + Eprint), wanted: Wanted, input: &[u8], text: &mut [u8])
    requires { text_bytes ≤ length text.old }
{
    let outcome = made(wanted, input, text);
    let _ = rt.write_all(&text[..outcome.count]);
    if let Some(message) = outcome.message {
        let _ = eprintln!(rt; "{message}");
    }
}

fn show(rt: HostRuntime, wanted: Wanted) {
    let mut input = [0u8; INPUT_BYTES];
    let mut text = [0u8; TEXT_BYTES];
    let count = read_full(&mut rt.stdin(), &mut input);
    print(&rt, wanted, &input[..count], &mut text);
}

fn explain(rt: &impl Eprint) {
    let _ = rt.eprintln("usage: iebus_load WINDOW [svg] <SLOTS");
}

fn has_argument(rt: &impl Env, place: usize) -> bool {
    !matches!(rt.arg(place, &mut []), Err(FillError::NotPresent))
}

// How many arguments there are, with the program's own name.
fn argument_count(rt: &impl Env) -> usize {
    (0..usize::MAX)
        .find(|place| !has_argument(rt, *place))
        .unwrap_or(usize::MAX)
}

fn main(rt: HostRuntime) {
    let mut window = [0u8; NUMBER_BYTES];
    let mut second = [0u8; 3];
    let digits = argument(&rt, 1, &mut window);
    let letters = argument(&rt, 2, &mut second);
    match asked(argument_count(&rt), &window[..digits], &second[..letters]) {
        Some(wanted) => show(rt, wanted),
        None => explain(&rt),
    }
}

// The program `iebus_slots`: it reads measured pulses from standard input, 32 bits each, little-endian, the least of a
// pulse in the lower half and the most in the upper, and writes the slot word of each, little-endian too, as
// `iebus_dump` reads them. The arguments are the least and the most width for 0, for 1 and for start. What it writes is
// made by `converted`, whose contract says all of it.
//
// Only the first 16,384 pulses are read. What there is to say goes to standard error: `refused 19` or `refused 20`, and
// then nothing is written; `more` where any byte follows the last pulse that is read, `short` for 1 to 3 bytes left
// over; or how to call the program. The status is 0 whatever the pulses are.
#![tactic(auto)]

ghost use Rattle.std.specs.Prelude.{◌≡◌, ◌++◌, ◌*◌, ◌≤◌, drop, length};
ghost use Rattle.iebus_slots.specs.Output.{ReadAgain, measured_of, message_of, most_pulses, output_of};

mod arguments;
mod output;

use crate::arguments::{Ends, setting_asked};
use crate::output::{Message, given, told};
use capture::slots_of_pulses;
use pieces::{argument, read_full};
use pulses::Setting;
use std::env::Env;
use words::{WORD_BYTES, put_bytes, put_words};

// At most so many pulses are read.
const MOST_PULSES: usize = 16384;

// One byte more than is read, so that a byte that follows is seen.
const INPUT_BYTES: usize = 65537;

// Room for the slots of all pulses that are read.
const SLOT_BYTES: usize = 65536;

// A number has at most five digits; a longer argument is none.
const ARGUMENT_BYTES: usize = 5;

// How many bytes of slots there are, and what is said. Not shared with `iebus_load`: one of both would be a generic
// type, and is no plainer than two fields.
#[derive(Clone, Copy)]
struct Outcome {
    count: usize,
    message: Option<Message>,
}

// The bytes of the slots go to the front of the list, as far as there is room for whole words; the rest of it stays as
// it was. 65,536 bytes are room for all of them, and whoever reads words there reads these slots.
fn converted(setting: Setting, input: &[u8], bytes: &mut [u8]) -> Outcome
    ensures count { result.count ≡ length (output_of setting input.now (length bytes.old)) }
    ensures written { bytes.new ≡ output_of setting input.now (length bytes.old)
        ++ drop result.count bytes.old }
    ensures message { result.message ≡ message_of (measured_of setting input.now) (length input.now) }
    ensures within { result.count ≤ length bytes.old }
    ensures read { ReadAgain setting input.now }
{
    let mut pulses = [0u32; MOST_PULSES];
    let mut slots = [0u32; MOST_PULSES];
    let count = put_words(input, &mut pulses);
    let ended = slots_of_pulses(setting, &pulses[..count], &mut slots);
    let words = put_bytes(&slots[..given(ended, count)], bytes);
    Outcome {
        count: words * WORD_BYTES,
        message: told(ended, input.len()),
    }
}

// There is room for all of it. Where it cannot be written, nothing is left to do. Not shared with `iebus_load`: a
// public function that only prints would have nothing to promise, and so no edit of it could be refused.
fn print(rt: &(impl Print + Eprint), setting: Setting, input: &[u8], slots: &mut [u8])
    requires { most_pulses * 4 ≤ length slots.old }
{
    let outcome = converted(setting, input, slots);
    let _ = rt.write_all(&slots[..outcome.count]);
    if let Some(message) = outcome.message {
        let _ = eprintln!(rt; "{message}");
    }
}

fn convert(rt: HostRuntime, setting: Setting) {
    let mut input = [0u8; INPUT_BYTES];
    let mut slots = [0u8; SLOT_BYTES];
    let count = read_full(&mut rt.stdin(), &mut input);
    print(&rt, setting, &input[..count], &mut slots);
}

fn explain(rt: &impl Eprint) {
    let _ = rt.eprintln(
        "usage: iebus_slots ZERO-LEAST ZERO-MOST ONE-LEAST ONE-MOST START-LEAST START-MOST <PULSES >SLOTS",
    );
}

// The text of an argument, in the bytes that are lent.
fn text<'a>(rt: &impl Env, place: usize, bytes: &'a mut [u8]) -> &'a [u8] {
    let count = argument(rt, place, bytes);
    &bytes[..count]
}

fn main(rt: HostRuntime) {
    // six arrays: the borrow checker does not cover one of six whose parts are lent side by side
    let mut zero_least = [0u8; ARGUMENT_BYTES];
    let mut zero_most = [0u8; ARGUMENT_BYTES];
    let mut one_least = [0u8; ARGUMENT_BYTES];
    let mut one_most = [0u8; ARGUMENT_BYTES];
    let mut start_least = [0u8; ARGUMENT_BYTES];
    let mut start_most = [0u8; ARGUMENT_BYTES];
    let zero = Ends {
        least: text(&rt, 1, &mut zero_least),
        most: text(&rt, 2, &mut zero_most),
    };
    let one = Ends {
        least: text(&rt, 3, &mut one_least),
        most: text(&rt, 4, &mut one_most),
    };
    let start = Ends {
        least: text(&rt, 5, &mut start_least),
        most: text(&rt, 6, &mut start_most),
    };
    match setting_asked(zero, one, start) {
        Some(setting) => convert(rt, setting),
        None => explain(&rt),
    }
}

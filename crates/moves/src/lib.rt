// How the place of a unit in a frame moves on, as far as several crates ask for it: the frames that a bit, a length and
// the end of the unit's part leave, and that of a unit that waits. No public function has a `requires`, and nothing is
// assumed.
#![tactic(auto)]

ghost use Rattle.std.specs.Prelude.{◌≡◌};
ghost use Rattle.place.specs.Frame.{done_of, length_of, next_of, no_frame, shift_of, shifted_of, with_length};
ghost use Rattle.place.specs.Slaves.{writes_of};

use line::numbers::LENGTH_OF_ZERO;
use place::{Field, Frame, Place};

// A write control: AH, BH, EH or FH.
#[tactic(auto, unfolding(place::specs::Slaves::writes_of))]
pub fn writes(control: u8) -> bool
    ensures { result ≡ writes_of control }
{
    (control == 10) | (control == 11) | (control == 14) | (control == 15)
}

// "Length 00H means 256."
#[tactic(auto, unfolding(place::specs::Frame::length_of))]
fn length(byte: u8) -> u16
    ensures { result ≡ length_of byte }
{
    if byte == 0 {
        LENGTH_OF_ZERO
    } else {
        u16::from(byte)
    }
}

// A bit taken in behind those before it, "highest bit first"; the register keeps twelve.
#[tactic(auto, unfolding(place::specs::Frame::shift_of))]
fn shift_in(bits: u16, bit: bool) -> u16
    ensures { result ≡ shift_of bits bit }
{
    bits % 2048 * 2 + bit as u16
}

// No frame: waiting for a start.
pub fn none() -> Frame
    ensures { result ≡ no_frame }
{
    Frame {
        place: Place::Waiting,
        shift: 0,
        broadcast: false,
        master: 0,
        sound: false,
        slave: 0,
        control: 0,
        length: 0,
        attempts: 0,
        acked: 0,
        ack: false,
        leads: false,
        sends: false,
        byte: 0,
        limit: 0,
    }
}

// The unit has done its part, or the frame has ended.
#[tactic(auto, unfolding(place::specs::Frame::done_of))]
pub fn done(mut frame: Frame) -> Frame
    ensures { result ≡ done_of frame }
{
    frame.place = Place::Waiting;
    frame
}

// The next slot of the same field.
#[tactic(auto, unfolding(place::specs::Frame::next_of))]
pub fn next(mut frame: Frame, field: Field, n: u8) -> Frame
    ensures { result ≡ next_of frame field n }
{
    frame.place = Place::In(field, n % 16 + 1);
    frame
}

// One bit of a field is taken in.
#[tactic(auto, unfolding(place::specs::Frame::shifted_of))]
pub fn shifted(mut frame: Frame, field: Field, n: u8, bit: bool) -> Frame
    ensures { result ≡ shifted_of frame field n bit }
{
    frame.shift = shift_in(frame.shift, bit);
    next(frame, field, n)
}

// The length that this unit sends, or has read.
#[tactic(auto, unfolding(place::specs::Frame::with_length))]
pub fn with_length(mut frame: Frame, byte: u8) -> Frame
    ensures { result ≡ with_length frame byte }
{
    frame.byte = byte;
    frame.length = length(byte);
    frame
}

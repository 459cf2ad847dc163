// The length and the data of a frame, level by level, with their attempts and the frame's end.
ghost use Rattle.std.specs.Prelude.{◌≡◌};
ghost use Rattle.place.specs.Step.{acked_of, again_of, at_data, at_length, counted_of, data_acked, data_judged};
ghost use Rattle.place.specs.Step.{ends_of, last_of, length_judged, text_ack, whole_of, with_ack};

use crate::header::{after_ack, go_on, heard, to};
use line::parity::parity_holds;
use moves::{done, shifted, with_length};
use place::{Event, Field, Frame, Moved};

// The ACK after length and data, which whoever does not send them gives.
#[tactic(auto, unfolding(place::specs::Step::text_ack))]
fn text_ack(frame: Frame, bit: bool) -> bool
    ensures { result ≡ text_ack frame bit }
{
    (frame.sends & heard(frame, bit)) | (!frame.sends & frame.ack)
}

#[tactic(auto, unfolding(place::specs::Step::with_ack))]
fn with_ack(mut frame: Frame, ack: bool) -> Frame
    ensures { result ≡ with_ack frame ack }
{
    frame.ack = ack;
    frame
}

// P of the length: whoever does not send it reads it.
#[tactic(auto, unfolding(place::specs::Step::length_judged))]
fn length_judged(frame: Frame, n: u8, bit: bool) -> Moved
    ensures { result ≡ length_judged frame n bit }
{
    if frame.sends {
        return go_on(frame, Field::Length, n, true);
    }
    let byte = (frame.shift % 256) as u8;
    let held = parity_holds(frame.shift as u32, bit);
    let read = with_ack(with_length(frame, byte), held);
    go_on(read, Field::Length, n, held | !frame.broadcast)
}

#[tactic(auto, unfolding(place::specs::Step::at_length))]
pub(crate) fn at_length(frame: Frame, n: u8, bit: bool) -> Moved
    ensures { result ≡ at_length frame n bit }
{
    if n < 8 {
        return Moved {
            frame: shifted(frame, Field::Length, n, bit),
            event: Event::Nothing,
        };
    }
    if n == 8 {
        return length_judged(frame, n, bit);
    }
    after_ack(frame, text_ack(frame, bit), Field::Data, Event::LengthAcked)
}

// P of a byte: "bad parity is NAK", and in a broadcast it ends the frame.
#[tactic(auto, unfolding(place::specs::Step::data_judged))]
fn data_judged(frame: Frame, n: u8, bit: bool) -> Moved
    ensures { result ≡ data_judged frame n bit }
{
    if frame.sends {
        return go_on(frame, Field::Data, n, true);
    }
    let held = parity_holds(frame.shift as u32, bit);
    go_on(
        with_ack(frame, held),
        Field::Data,
        n,
        held | !frame.broadcast,
    )
}

// One attempt more.
#[tactic(auto, unfolding(place::specs::Step::counted_of))]
fn counted(mut frame: Frame) -> Frame
    ensures { result ≡ counted_of frame }
{
    frame.attempts = frame.attempts % 128 + 1;
    frame
}

// One byte more is ACKed.
#[tactic(auto, unfolding(place::specs::Step::acked_of))]
fn with_acked(mut frame: Frame) -> Frame
    ensures { result ≡ acked_of frame }
{
    frame.acked = frame.acked % 512 + 1;
    frame
}

// This attempt is the last that the frame can have.
#[tactic(auto, unfolding(place::specs::Step::last_of))]
fn last(frame: Frame) -> bool
    ensures { result ≡ last_of frame }
{
    frame.limit <= frame.attempts % 128 + 1
}

// With this byte all are ACKed.
#[tactic(auto, unfolding(place::specs::Step::whole_of))]
fn whole(frame: Frame) -> bool
    ensures { result ≡ whole_of frame }
{
    frame.length <= frame.acked % 512 + 1
}

// After an ACKed byte: the end, or the next byte.
#[tactic(auto, unfolding(place::specs::Step::ends_of))]
fn ends(frame: Frame, whole: bool, last: bool) -> Moved
    ensures { result ≡ ends_of frame whole last }
{
    if whole {
        return Moved {
            frame: done(frame),
            event: Event::AllAcked,
        };
    }
    if last {
        return Moved {
            frame: done(frame),
            event: Event::ShortAcked,
        };
    }
    Moved {
        frame: to(frame, Field::Data),
        event: Event::ByteAcked,
    }
}

// "NAK after data repeats the byte", while attempts are left.
#[tactic(auto, unfolding(place::specs::Step::again_of))]
fn again(frame: Frame, last: bool) -> Moved
    ensures { result ≡ again_of frame last }
{
    if last {
        return Moved {
            frame: done(frame),
            event: Event::Aborted,
        };
    }
    Moved {
        frame: to(frame, Field::Data),
        event: Event::Nothing,
    }
}

// A of a byte.
#[tactic(auto, unfolding(place::specs::Step::data_acked))]
fn data_acked(frame: Frame, bit: bool) -> Moved
    ensures { result ≡ data_acked frame bit }
{
    if text_ack(frame, bit) {
        return ends(with_acked(counted(frame)), whole(frame), last(frame));
    }
    again(counted(frame), last(frame))
}

#[tactic(auto, unfolding(place::specs::Step::at_data))]
pub(crate) fn at_data(frame: Frame, n: u8, bit: bool) -> Moved
    ensures { result ≡ at_data frame n bit }
{
    if n < 8 {
        return Moved {
            frame: shifted(frame, Field::Data, n, bit),
            event: Event::Nothing,
        };
    }
    if n == 8 {
        return data_judged(frame, n, bit);
    }
    data_acked(frame, bit)
}

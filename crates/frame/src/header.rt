// The header of a frame, level by level: broadcast bit, master address, slave address and control. A judgement is made
// at P, and A decides how the frame goes on.
ghost use Rattle.std.specs.Prelude.{◌≡◌};
ghost use Rattle.place.specs.Frame.{to_field};
ghost use Rattle.place.specs.Step.{after_ack, at_broadcast, at_control, at_master, at_slave, control_judged, go_on};
ghost use Rattle.place.specs.Step.{header_ack, heard_of, master_of, slave_judged, with_control, with_slave};

use crate::judging::{accepted, addressed, judge_control, stranger};
use line::parity::parity_holds;
use moves::{done, next, shifted, writes};
use place::{Event, Field, Frame, Moved, Place, View};

// A field begins.
#[tactic(auto, unfolding(place::specs::Frame::to_field))]
pub(crate) fn to(mut frame: Frame, field: Field) -> Frame
    ensures { result ≡ to_field frame field }
{
    frame.place = Place::In(field, 0);
    frame.shift = 0;
    frame
}

// "An ACK is .. awaited from another, the settled level", and "in a broadcast .. A is ignored".
#[tactic(auto, unfolding(place::specs::Step::heard_of))]
pub(crate) fn heard(frame: Frame, bit: bool) -> bool
    ensures { result ≡ heard_of frame bit }
{
    frame.broadcast | !bit
}

// The ACK after slave address and control, which the slave gives.
#[tactic(auto, unfolding(place::specs::Step::header_ack))]
fn header_ack(frame: Frame, bit: bool) -> bool
    ensures { result ≡ header_ack frame bit }
{
    (frame.leads & heard(frame, bit)) | (!frame.leads & frame.ack)
}

#[tactic(auto, unfolding(place::specs::Step::at_broadcast))]
pub(crate) fn at_broadcast(mut frame: Frame, bit: bool) -> Moved
    ensures { result ≡ at_broadcast frame bit }
{
    frame.broadcast = !bit;
    Moved {
        frame: to(frame, Field::Master),
        event: Event::Nothing,
    }
}

// The master address is whole, and its P says whether it is sound.
#[tactic(auto, unfolding(place::specs::Step::master_of))]
fn with_master(mut frame: Frame, held: bool) -> Frame
    ensures { result ≡ master_of frame held }
{
    frame.master = frame.shift;
    frame.sound = held;
    to(frame, Field::Slave)
}

#[tactic(auto, unfolding(place::specs::Step::at_master))]
pub(crate) fn at_master(frame: Frame, n: u8, bit: bool) -> Moved
    ensures { result ≡ at_master frame n bit }
{
    if n < 12 {
        return Moved {
            frame: shifted(frame, Field::Master, n, bit),
            event: Event::Nothing,
        };
    }
    let held = parity_holds(frame.shift as u32, bit);
    Moved {
        frame: with_master(frame, held),
        event: Event::Addressed,
    }
}

// After P: the A slot, or nothing more for this unit.
#[tactic(auto, unfolding(place::specs::Step::go_on))]
pub(crate) fn go_on(frame: Frame, field: Field, n: u8, goes: bool) -> Moved
    ensures { result ≡ go_on frame field n goes }
{
    if goes {
        return Moved {
            frame: next(frame, field, n),
            event: Event::Nothing,
        };
    }
    Moved {
        frame: done(frame),
        event: Event::Aborted,
    }
}

// After A: the field that follows, or the NAK that stops the frame.
#[tactic(auto, unfolding(place::specs::Step::after_ack))]
pub(crate) fn after_ack(frame: Frame, acked: bool, field: Field, event: Event) -> Moved
    ensures { result ≡ after_ack frame acked field event }
{
    if acked {
        return Moved {
            frame: to(frame, field),
            event,
        };
    }
    Moved {
        frame: done(frame),
        event: Event::Aborted,
    }
}

#[tactic(auto, unfolding(place::specs::Step::with_slave))]
fn with_slave(mut frame: Frame, ack: bool) -> Frame
    ensures { result ≡ with_slave frame ack }
{
    frame.slave = frame.shift;
    frame.ack = ack;
    frame
}

// P of the slave address: a slave goes on only where it is addressed.
#[tactic(auto, unfolding(place::specs::Step::slave_judged))]
fn slave_judged(frame: Frame, n: u8, bit: bool, own: u16) -> Moved
    ensures { result ≡ slave_judged frame n bit own }
{
    let held = parity_holds(frame.shift as u32, bit);
    let mine = addressed(frame, frame.shift, own, held);
    go_on(with_slave(frame, mine), Field::Slave, n, frame.leads | mine)
}

// This and the functions of the other fields with a P and an A go alike, and are no one function: the paper has them one
// by one, each with its width, its judgement and what follows, all of which would be handed over.
#[tactic(auto, unfolding(place::specs::Step::at_slave))]
pub(crate) fn at_slave(frame: Frame, n: u8, bit: bool, own: u16) -> Moved
    ensures { result ≡ at_slave frame n bit own }
{
    if n < 12 {
        return Moved {
            frame: shifted(frame, Field::Slave, n, bit),
            event: Event::Nothing,
        };
    }
    if n == 12 {
        return slave_judged(frame, n, bit, own);
    }
    after_ack(
        frame,
        header_ack(frame, bit),
        Field::Control,
        Event::Nothing,
    )
}

#[tactic(auto, unfolding(place::specs::Step::with_control))]
fn with_control(mut frame: Frame, control: u8, ack: bool, sends: bool) -> Frame
    ensures { result ≡ with_control frame control ack sends }
{
    frame.control = control;
    frame.ack = ack;
    frame.sends = sends;
    frame
}

// P of the control: a slave goes on only where it accepts. A master sends what a write control says.
#[tactic(auto, unfolding(place::specs::Step::control_judged))]
fn control_judged(frame: Frame, n: u8, bit: bool, view: View) -> Moved
    ensures { result ≡ control_judged frame n bit view }
{
    let control = (frame.shift % 16) as u8;
    let held = parity_holds(frame.shift as u32, bit);
    let strange = stranger(view, frame.master);
    let judged = judge_control(control, strange, view);
    let ack = held & accepted(judged, frame.broadcast);
    let sends = frame.leads == writes(control);
    go_on(
        with_control(frame, control, ack, sends),
        Field::Control,
        n,
        frame.leads | ack,
    )
}

#[tactic(auto, unfolding(place::specs::Step::at_control))]
pub(crate) fn at_control(frame: Frame, n: u8, bit: bool, view: View) -> Moved
    ensures { result ≡ at_control frame n bit view }
{
    if n < 4 {
        return Moved {
            frame: shifted(frame, Field::Control, n, bit),
            event: Event::Nothing,
        };
    }
    if n == 4 {
        return control_judged(frame, n, bit, view);
    }
    after_ack(
        frame,
        header_ack(frame, bit),
        Field::Length,
        Event::ControlAcked,
    )
}

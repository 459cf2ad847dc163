// One level of a frame: the field that it falls in, unless it overrules what the unit drives as master.
ghost use Rattle.std.specs.Prelude.{◌≡◌};
ghost use Rattle.line.specs.Choice.{pick};
ghost use Rattle.place.specs.Masters.{clash_of, contested_of, lost_of, own_bit};
ghost use Rattle.place.specs.Step.{at_field, in_field, level_of};

use crate::header::{at_broadcast, at_control, at_master, at_slave};
use crate::text::{at_data, at_length};
use driving::drive;
use moves::done;
use place::{Event, Field, Frame, Moved, Place, View};

// One level in a field, with nothing of the unit's own overruled.
#[tactic(auto, unfolding(place::specs::Step::at_field))]
fn at_field(frame: Frame, field: Field, n: u8, bit: bool, view: View) -> Moved
    ensures { result ≡ at_field frame field n bit view }
{
    match field {
        Field::Broadcast => at_broadcast(frame, bit),
        Field::Master => at_master(frame, n, bit),
        Field::Slave => at_slave(frame, n, bit, view.own),
        Field::Control => at_control(frame, n, bit, view),
        Field::Length => at_length(frame, n, bit),
        Field::Data => at_data(frame, n, bit),
    }
}

// The slots in which a contest is lost: the broadcast bit and the twelve address bits.
#[tactic(auto, unfolding(place::specs::Masters::contested_of))]
fn contested(field: Field, n: u8) -> bool
    ensures { result ≡ contested_of field n }
{
    match field {
        Field::Broadcast => true,
        Field::Master => n < 12,
        Field::Slave | Field::Control | Field::Length | Field::Data => false,
    }
}

// The master's own bits, P with them: A is none of them, nor is what another sends.
#[tactic(auto, unfolding(place::specs::Masters::own_bit))]
fn own_bit(frame: Frame, field: Field, n: u8) -> bool
    ensures { result ≡ own_bit frame field n }
{
    match field {
        Field::Broadcast | Field::Master => true,
        Field::Slave => n <= 12,
        Field::Control => n <= 4,
        Field::Length | Field::Data => frame.sends & (n <= 8),
    }
}

// A master drives 1 in a bit of its own and reads 0. "A sending slave does not compare."
#[tactic(auto, unfolding(place::specs::Masters::clash_of))]
fn clash(frame: Frame, field: Field, n: u8, bit: bool, view: View) -> bool
    ensures { result ≡ clash_of frame field n bit view }
{
    frame.leads & own_bit(frame, field, n) & drive(frame, view) & !bit
}

// "The unit goes on as a receiver of that frame" where it lost.
fn led(mut frame: Frame, lost: bool) -> Frame
    ensures { result ≡ pick lost (lost_of frame) frame }
{
    frame.leads = frame.leads & !lost;
    frame
}

// A loss is told, whatever else the level brought about.
fn told(event: Event, lost: bool) -> Event
    ensures { result ≡ pick lost Event.Lost event }
{
    if lost {
        return Event::Lost;
    }
    event
}

// What the master drove may be overruled: a loss, after which it receives, or the end of its request. The field is
// gone through at one place, by a loser too: a second copy of all that a field decides would cost more than the rest.
fn in_field(frame: Frame, field: Field, n: u8, bit: bool, view: View) -> Moved
    ensures { result ≡ in_field frame field n bit view }
{
    let overruled = clash(frame, field, n, bit, view);
    if overruled & !contested(field, n) {
        return Moved {
            frame: done(frame),
            event: Event::Aborted,
        };
    }
    let mut moved = at_field(led(frame, overruled), field, n, bit, view);
    moved.event = told(moved.event, overruled);
    moved
}

// One level of the frame under way; while the unit waits for a start, nothing.
#[tactic(auto, unfolding(place::specs::Step::level_of))]
pub fn level(frame: Frame, bit: bool, view: View) -> Moved
    ensures { result ≡ level_of frame bit view }
{
    match frame.place {
        Place::Waiting => Moved {
            frame,
            event: Event::Nothing,
        },
        Place::In(field, n) => in_field(frame, field, n, bit, view),
    }
}

// What the unit drives in the next slot inside a frame: the bits that it sends, and its ACK. The public function has no
// `requires`, and nothing is assumed.
#![tactic(auto)]

ghost use Rattle.std.specs.Prelude.{◌≡◌, ◌≤◌};
ghost use Rattle.place.specs.Drive.{replied_of, drive_of, drive_in, sent_of};

use place::{Field, Frame, Place, View};

// A field that the unit sends: its bits, highest first, its P, and A released.
#[tactic(auto, unfolding(place::specs::Drive::sent_of, line::specs::Parity::level_of))]
fn sent(width: u8, value: u16, n: u8) -> bool
    requires { width ≤ 12 }
    ensures { result ≡ sent_of width value n }
{
    if n < width {
        return (value >> (width - 1 - n)) % 2 == 1;
    }
    if n == width {
        return line::parity::parity(value as u32) == 1;
    }
    true
}

// A field that the unit does not send: released, and 0 for its ACK, which a broadcast has none of.
#[tactic(auto, unfolding(place::specs::Drive::replied_of))]
fn answer(frame: Frame, width: u8, n: u8) -> bool
    ensures { result ≡ replied_of frame width n }
{
    (n <= width) | !frame.ack | frame.broadcast
}

#[tactic(auto, unfolding(place::specs::Drive::drive_in))]
fn drive_in(frame: Frame, field: Field, n: u8, view: View) -> bool
    ensures { result ≡ drive_in frame field n view }
{
    match field {
        Field::Broadcast => !frame.leads | view.bit,
        Field::Master => {
            if frame.leads {
                return sent(12, view.own % 4096, n);
            }
            true
        }
        Field::Slave => {
            if frame.leads {
                return sent(12, view.slave % 4096, n);
            }
            answer(frame, 12, n)
        }
        Field::Control => {
            if frame.leads {
                return sent(4, view.control as u16 % 16, n);
            }
            answer(frame, 4, n)
        }
        Field::Length | Field::Data => {
            if frame.sends {
                return sent(8, frame.byte as u16, n);
            }
            answer(frame, 8, n)
        }
    }
}

// The level that the unit drives in the next slot inside a frame; while it waits, it drives none but 1 here.
#[tactic(auto, unfolding(place::specs::Drive::drive_of))]
pub fn drive(frame: Frame, view: View) -> bool
    ensures { result ≡ drive_of frame view }
{
    match frame.place {
        Place::Waiting => true,
        Place::In(field, n) => drive_in(frame, field, n, view),
    }
}

// The judgements that a slave makes at P.
ghost use Rattle.std.specs.Prelude.{◌≡◌};
ghost use Rattle.place.specs.Slaves.{accepted_of, addressed_of, by_value, control_of, open_to, stranger_of};

use line::numbers::GENERAL_BROADCAST;
use place::{Frame, Part, View};

// The slave address is for this unit, and both parities held: its own or, in a broadcast, the group's ("same top four
// address bits") or the general one.
#[tactic(auto, unfolding(place::specs::Slaves::addressed_of))]
pub(crate) fn addressed(frame: Frame, address: u16, own: u16, held: bool) -> bool
    ensures { result ≡ addressed_of frame address own held }
{
    let group = (address == GENERAL_BROADCAST) | (address / 256 == own / 256);
    let mine = (frame.broadcast & group) | (!frame.broadcast & (address == own));
    frame.sound & held & mine
}

// A locked unit, and another master than the holder.
#[tactic(auto, unfolding(place::specs::Slaves::stranger_of))]
pub(crate) fn stranger(view: View, master: u16) -> bool
    ensures { result ≡ stranger_of view master }
{
    view.locked & (view.holder != master)
}

// What a stranger gets all the same: 0H, 4H, 5H.
#[tactic(auto, unfolding(place::specs::Slaves::open_to))]
fn open_to_all(control: u8) -> bool
    ensures { result ≡ open_to control }
{
    (control == 0) | (control == 4) | (control == 5)
}

// "Control, decided over all sixteen values"; none is NAK.
#[tactic(auto, unfolding(place::specs::Slaves::by_value))]
fn by_value(control: u8, view: View) -> Option<Part>
    ensures { result ≡ by_value control view.strq view.ready view.locked }
{
    match control {
        0 | 5..=6 => Some(Part::Sends),
        4 => view.locked.then_some(Part::Sends),
        3 | 7 => view.strq.then_some(Part::Sends),
        10..=11 | 14..=15 => view.ready.then_some(Part::Receives),
        _ => None,
    }
}

// What a slave makes of a control: from whom it comes, then its value.
#[tactic(auto, unfolding(place::specs::Slaves::control_of))]
pub(crate) fn judge_control(control: u8, strange: bool, view: View) -> Option<Part>
    ensures { result ≡ control_of control strange view.strq view.ready view.locked }
{
    if strange & !open_to_all(control) {
        return None;
    }
    by_value(control, view)
}

// Whether what was judged is taken: in a broadcast only what is received.
#[tactic(auto, unfolding(place::specs::Slaves::accepted_of))]
pub(crate) fn accepted(judged: Option<Part>, broadcast: bool) -> bool
    ensures { result ≡ accepted_of judged broadcast }
{
    match judged {
        None => false,
        Some(Part::Sends) => !broadcast,
        Some(Part::Receives) => true,
    }
}

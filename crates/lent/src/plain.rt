// The plainest words by a short way: a level while the unit waits for a start, a bit of a field that it only listens
// to, or a bit of a field that the line has as the unit drives it. Most words of a bus are such, and nothing is judged
// or stored with them, so they need not be carried through all that a slot can bring about.
ghost use Rattle.std.specs.Prelude.{◌≡◌};
ghost use Rattle.lent.specs.Plain.{Agreed, Agrees, amid_of, inside_of, listened_of, plain_of, plainly, took_by};

use crate::step::{Answered, Lent};
use line::numbers::DRIVE_RELEASED;
use moves::shifted;
use place::{Field, Frame, Place};
use rules::answer::Reply;
use rules::state::Core;

// A bit of a field that is shifted in: not the broadcast bit, P or A.
#[tactic(auto, unfolding(crate::specs::Plain::inside_of))]
fn inside(field: Field, n: u8) -> bool
    ensures { result ≡ inside_of field n }
{
    match field {
        Field::Broadcast => false,
        Field::Master | Field::Slave => n < 12,
        Field::Control => n < 4,
        Field::Length | Field::Data => n < 8,
    }
}

// The next level is only listened to.
#[tactic(auto, unfolding(crate::specs::Plain::plain_of))]
pub(crate) fn plain(frame: Frame) -> bool
    ensures { result ≡ plain_of frame }
{
    match frame.place {
        Place::Waiting => true,
        Place::In(field, n) => !frame.leads & !frame.sends & inside(field, n),
    }
}

// The next level is a bit of a field, whoever sends it.
#[tactic(auto, unfolding(crate::specs::Plain::amid_of))]
fn amid(frame: Frame) -> bool
    ensures { result ≡ amid_of frame }
{
    match frame.place {
        Place::Waiting => false,
        Place::In(field, n) => inside(field, n),
    }
}

#[tactic(auto, unfolding(crate::specs::Plain::listened_of))]
fn listened(frame: Frame, bit: bool) -> Frame
    ensures { result ≡ listened_of frame bit }
{
    match frame.place {
        Place::Waiting => frame,
        Place::In(field, n) => shifted(frame, field, n, bit),
    }
}

impl Lent {
    // The level is taken in, and nothing else happens.
    fn took(self, bit: bool) -> Lent
        ensures { result ≡ took_by self bit }
    {
        let core = Core {
            frame: listened(self.core.frame, bit),
            idle: false,
            ..self.core
        };
        Lent { core, ..self }
    }

    // After a level that is only listened to, the line stays released.
    pub(crate) fn plainly(self, bit: bool) -> Answered
        ensures { result ≡ plainly self bit }
    {
        Answered {
            lent: self.took(bit),
            answer: Ok(Reply::Taken(DRIVE_RELEASED)),
        }
    }

    // A bit of a field that the line has as the unit drives it: it is neither refused nor lost.
    pub(crate) fn agrees(self, word: u32) -> bool
        ensures { Agrees self word result }
    {
        amid(self.core.frame) & (self.drive() as u32 == word)
    }

    // After such a bit.
    pub(crate) fn agreed(self, bit: bool) -> Answered
        ensures { Agreed self bit result }
    {
        let lent = self.took(bit);
        Answered {
            lent,
            answer: Ok(Reply::Taken(lent.drive())),
        }
    }
}

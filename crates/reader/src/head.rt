// The header of a frame: the fields that are given, and how the frame ended where it did not come to its data.
ghost use Rattle.std.specs.Prelude.{◌&&◌, ◌≡◌, ◌<◌, ◌≤◌, eqb, get_or, length};
ghost use Rattle.logs.specs.Frames.{Low};
ghost use Rattle.logs.specs.Fields.{length_in};
ghost use Rattle.reader.specs.Heads.{Addressed, head_of};

use crate::ending::Ending;
use crate::levels::number;
use crate::words::{BIT_WEIGHT, CONTROL_WEIGHT, LENGTH_WEIGHT, SLAVE_WEIGHT};
use line::numbers::LENGTH_OF_ZERO;

// What the words before the bytes say of a frame: how many fields are given, what its record's first word says of them
// and, once its data is read, of the number of ACKed bytes and of the attempts after these, and its second word, 0
// where there is none. These are a record's words and no fields of their own: a header of seven fields was tried, and
// logs of nothing but starts took a sixth more instructions.
#[derive(Clone, Copy, PartialEq, Eq)]
pub struct Front {
    pub given: u32,
    pub said: u32,
    pub addresses: u32,
}

impl Front {
    fn ended(self, ending: Ending) -> Head
        ensures { result ≡ record { front = self; ending = ending } }
    {
        Head {
            front: self,
            ending,
        }
    }
}

// What the header of a frame gives, and how the frame ended, as far as its header tells.
#[derive(Clone, Copy)]
pub struct Head {
    pub front: Front,
    pub ending: Ending,
}

fn length_in(byte: u32) -> u32
    requires { byte < 0x100 }
    ensures { (result ≡ length_in byte) × (result ≤ 0x100) }
{
    if byte == 0 {
        LENGTH_OF_ZERO as u32
    } else {
        byte
    }
}

// Whether the A at a place is NAK: it is 1, in a frame to one slave.
fn is_nak(levels: &[u32], place: usize) -> bool
    requires { place < length levels.now }
    ensures { result ≡ (eqb (get_or levels.now 0 0) 1 && eqb (get_or levels.now place 0) 1) }
{
    (levels[0] == 1) & (levels[place] == 1)
}

// The header of a frame that has its slave address and no NAK there, from what these fields give.
fn head_answered(levels: &[u32], addressed: Front) -> Head
    requires { Low levels.now × (28 ≤ length levels.now) × Addressed levels.now addressed }
    ensures { result ≡ head_of levels.now }
{
    let count = levels.len();
    if count < 34 {
        return addressed.ended(Ending::BrokenControl);
    }
    let control = number(&levels[28..32]);
    let controlled = Front {
        given: 4,
        said: addressed.said + control * CONTROL_WEIGHT,
        ..addressed
    };
    if is_nak(levels, 33) {
        return controlled.ended(Ending::NakControl);
    }
    if count < 44 {
        return controlled.ended(Ending::BrokenLength);
    }
    let bytes = length_in(number(&levels[34..42]));
    let whole = Front {
        given: 5,
        said: controlled.said + bytes * LENGTH_WEIGHT,
        ..controlled
    };
    if is_nak(levels, 43) {
        return whole.ended(Ending::NakLength);
    }
    whole.ended(Ending::BrokenData)
}

// The header of a frame of these levels. A frame is broken off in the first field that is not there, and one that has
// all of them and no NAK in its data, until its data tells otherwise.
pub(crate) fn head_of(levels: &[u32]) -> Head
    requires { Low levels.now }
    ensures { result ≡ head_of levels.now }
{
    let count = levels.len();
    let none = Front {
        given: 0,
        said: 0,
        addresses: 0,
    };
    if count < 1 {
        return none.ended(Ending::BrokenBit);
    }
    let sent = Front {
        given: 1,
        said: levels[0] * BIT_WEIGHT,
        ..none
    };
    if count < 14 {
        return sent.ended(Ending::BrokenMaster);
    }
    let master = number(&levels[1..13]);
    let mastered = Front {
        given: 2,
        addresses: master,
        ..sent
    };
    if count < 28 {
        return mastered.ended(Ending::BrokenSlave);
    }
    let slave = number(&levels[14..26]);
    let addressed = Front {
        given: 3,
        addresses: mastered.addresses + slave * SLAVE_WEIGHT,
        ..mastered
    };
    if is_nak(levels, 27) {
        return addressed.ended(Ending::NakSlave);
    }
    head_answered(levels, addressed)
}

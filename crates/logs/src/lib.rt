// A log of a line: what the slot words of a whole line say, frame by frame, to a reader that belongs to no address. The
// frames of a list, the fields of a frame and the record of each are definitions (`specs/`), and so are the laws that a
// user relies on (`proofs/`). Of code there is only what is refused, and by which number: `reader` is the code.
#![tactic(auto)]

ghost use Rattle.std.specs.Prelude.{◌≡◌};
ghost use Rattle.logs.specs.Frames.{stray_in};
ghost use Rattle.logs.specs.Log.{refusal_of};

use line::numbers::{REFUSED_NO_SLOT, REFUSED_SHORT_LIST, SLOT_IDLE};
use std::error::Error;
use std::fmt;

// Why a log is not read.
#[derive(Clone, Copy, Debug, PartialEq, Eq)]
pub enum LogError {
    ShortList,
    NoSlot,
}

impl LogError {
    // The number that a host in C is given: 12 or 16.
    pub fn number(self) -> u32
        ensures { result ≡ refusal_of self }
    {
        match self {
            LogError::ShortList => REFUSED_SHORT_LIST as u32,
            LogError::NoSlot => REFUSED_NO_SLOT as u32,
        }
    }
}

impl fmt::Display for LogError {
    fn fmt<W: fmt::Write>(&self, f: &mut fmt::Formatter<W>) -> fmt::Result {
        match self {
            LogError::ShortList => write!(f, "the record list is shorter than the slot list"),
            LogError::NoSlot => write!(f, "a word is no slot word"),
        }
    }
}

impl Error for LogError {}

// Whether some word is no slot word. The words are laid over each other: slot words then make a slot word, and a word
// that is none leaves a digit that no slot word has. To look at every word and test once is cheaper than a test of each.
pub fn strays(slots: &[u32]) -> bool
    ensures { result ≡ stray_in slots.now }
{
    let mut digits = 0;
    for slot in slots {
        digits |= *slot;
    }
    SLOT_IDLE < digits
}

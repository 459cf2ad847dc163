// The load of a line: how many of its latest slots are not idle, after every slot of a log, and when that was most. It
// is said by definitions (`specs/`), with the laws that a planner relies on (`proofs/`). The code is `meter`, which
// answers with the types that stand here.
#![tactic(auto)]

ghost use Rattle.std.specs.Prelude.{◌≡◌};
ghost use Rattle.loads.specs.Load.{refusal_of};

use line::numbers::{REFUSED_NO_SLOT, REFUSED_SHORT_LIST, REFUSED_WINDOW};
use std::error::Error;
use std::fmt;

// The largest figure of a log, and the first place where it was reached. An empty log has none.
#[derive(Clone, Copy, Debug, PartialEq, Eq)]
pub struct Peak {
    pub largest: u32,
    pub place: usize,
}

// Why the figures of a log are not worked out.
#[derive(Clone, Copy, Debug, PartialEq, Eq)]
pub enum LoadError {
    ShortList,
    BadWindow,
    NoSlot,
}

impl LoadError {
    // The number that stands for it where numbers are told.
    pub fn number(self) -> u32
        ensures { result ≡ refusal_of self }
    {
        match self {
            LoadError::ShortList => REFUSED_SHORT_LIST as u32,
            LoadError::BadWindow => REFUSED_WINDOW as u32,
            LoadError::NoSlot => REFUSED_NO_SLOT as u32,
        }
    }
}

impl fmt::Display for LoadError {
    fn fmt<W: fmt::Write>(&self, f: &mut fmt::Formatter<W>) -> fmt::Result {
        f.write_str(match self {
            LoadError::ShortList => "the list has no room for a figure of each slot",
            LoadError::BadWindow => "the window is out of range",
            LoadError::NoSlot => "a word of the log is no slot word",
        })
    }
}

impl Error for LoadError {}

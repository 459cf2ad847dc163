// The contenders of a contest, and how it ends, by value. What a contest comes to is said by definitions over these
// (`specs/`); `contest` is the code that decides it. No function has a `requires`, and nothing is assumed.
#![tactic(auto)]

ghost use Rattle.std.specs.Prelude.{◌≡◌};
ghost use Rattle.contenders.specs.Contest.{no_contenders, verdict_of, with_contender};

use line::numbers::{
    MOST_CONTENDERS, REFUSED_CONTENDER_COUNT, REFUSED_CONTENDER_RANGE, REFUSED_CONTENDERS_ALIKE,
    REFUSED_SHORT_LIST,
};
use std::error::Error;
use std::fmt;

// A master's broadcast bit (0 is broadcast) and its address.
#[repr(C)]
#[derive(Clone, Copy, Debug, PartialEq, Eq)]
pub struct Contender {
    pub bit: u8,
    pub address: u16,
}

// How many contenders there are, and the first 50 of them. What stands past the count is of no account. The contest
// takes this value where its contenders come one by one, two numbers each: "thin functions read one record and call
// covered code on two numbers".
#[derive(Clone, Copy)]
pub struct Contenders {
    pub count: usize,
    pub list: [Contender; MOST_CONTENDERS],
}

// Why a contest is refused. A place out of range is the first; one alike is the lowest whose contender occurs again
// later.
#[derive(Clone, Copy, Debug, PartialEq, Eq)]
pub enum ContestError {
    ShortList,
    WrongCount,
    OutOfRange(usize),
    Alike(usize),
}

impl fmt::Display for ContestError {
    fn fmt<W: fmt::Write>(&self, f: &mut fmt::Formatter<W>) -> fmt::Result {
        match self {
            ContestError::ShortList => write!(f, "fewer numbers than contenders"),
            ContestError::WrongCount => write!(f, "no contender, or over 50"),
            ContestError::OutOfRange(place) => {
                write!(f, "the contender at place {place} is out of range")
            }
            ContestError::Alike(place) => {
                write!(f, "the contender at place {place} occurs again")
            }
        }
    }
}

impl Error for ContestError {}

// What document 01 says for a contest that names the winner's place or is refused: the refusal's number, 0 where there
// is none, and the place named, 0 where none is: as a host in C reads them, off one number.
#[derive(Clone, Copy, Debug, PartialEq, Eq)]
pub struct Verdict {
    pub number: u8,
    pub place: usize,
}

impl Verdict {
    pub fn of(outcome: Result<usize, ContestError>) -> Verdict
        ensures { result ≡ verdict_of outcome }
    {
        match outcome {
            Ok(place) => Verdict { number: 0, place },
            Err(ContestError::ShortList) => Verdict {
                number: REFUSED_SHORT_LIST,
                place: 0,
            },
            Err(ContestError::WrongCount) => Verdict {
                number: REFUSED_CONTENDER_COUNT,
                place: 0,
            },
            Err(ContestError::OutOfRange(place)) => Verdict {
                number: REFUSED_CONTENDER_RANGE,
                place,
            },
            Err(ContestError::Alike(place)) => Verdict {
                number: REFUSED_CONTENDERS_ALIKE,
                place,
            },
        }
    }
}

impl Contenders {
    // As many contenders as the count says, each still to be given by `with`.
    pub fn new(count: usize) -> Contenders
        ensures { result ≡ no_contenders count }
    {
        Contenders {
            count,
            list: [Contender { bit: 0, address: 0 }; MOST_CONTENDERS],
        }
    }

    // The same with the contender at a place given. Past the first 50 places nothing is kept.
    pub fn with(mut self, place: usize, bit: u8, address: u16) -> Contenders
        ensures { result ≡ with_contender self place bit address }
    {
        if place < MOST_CONTENDERS {
            self.list[place] = Contender { bit, address };
        }
        self
    }
}

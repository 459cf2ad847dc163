// What a word is answered.
ghost use Rattle.std.specs.Prelude.{◌≡◌};
ghost use Rattle.rules.specs.Answers.{number_of};

use line::numbers::{
    REFUSED_EMPTY, REFUSED_FULL, REFUSED_KIND, REFUSED_LEVEL, REFUSED_OUT_OF_TURN,
    REFUSED_REGISTER, REFUSED_STRAY_BIT, REFUSED_TOO_FEW, REFUSED_UNABLE, REFUSED_VALUE,
};
use std::error::Error;
use std::fmt;

// An answer to an accepted word: the level or start that the unit drives next and, of a read, the value first. What is
// driven is the number of the answer's bits 9-8, and no enum: the word of every number is promised (`answer_word`).
#[derive(Clone, Copy, Debug, PartialEq, Eq)]
pub enum Reply {
    Taken(u8),
    Written(u8),
    Read(u8, u8),
}

// Why a word is refused: because of the input, then because of the state, in the order of their numbers.
#[derive(Clone, Copy, Debug, PartialEq, Eq)]
pub enum Refusal {
    UnknownKind,
    StrayBit,
    UnlistedRegister,
    UnlistedValue,
    LevelUnheard,
    OutOfTurn,
    Full,
    TooFew,
    Empty,
    Unable,
}

pub type Answer = Result<Reply, Refusal>;

impl Refusal {
    // The number that a host is given.
    pub fn number(self) -> u8
        ensures { result ≡ number_of self }
    {
        match self {
            Refusal::UnknownKind => REFUSED_KIND,
            Refusal::StrayBit => REFUSED_STRAY_BIT,
            Refusal::UnlistedRegister => REFUSED_REGISTER,
            Refusal::UnlistedValue => REFUSED_VALUE,
            Refusal::LevelUnheard => REFUSED_LEVEL,
            Refusal::OutOfTurn => REFUSED_OUT_OF_TURN,
            Refusal::Full => REFUSED_FULL,
            Refusal::TooFew => REFUSED_TOO_FEW,
            Refusal::Empty => REFUSED_EMPTY,
            Refusal::Unable => REFUSED_UNABLE,
        }
    }
}

impl fmt::Display for Refusal {
    fn fmt<W: fmt::Write>(&self, f: &mut fmt::Formatter<W>) -> fmt::Result {
        f.write_str(match self {
            Refusal::UnknownKind => "kind not 0, 1, 2",
            Refusal::StrayBit => "an unnamed bit is set",
            Refusal::UnlistedRegister => "register not in the list for that direction",
            Refusal::UnlistedValue => "value not listed",
            Refusal::LevelUnheard => "level 1 while the unit drives 0",
            Refusal::OutOfTurn => "out of turn",
            Refusal::Full => "TBF is full",
            Refusal::TooFew => "TBF has under 2 bytes",
            Refusal::Empty => "RBF is empty",
            Refusal::Unable => "the unit cannot",
        })
    }
}

impl Error for Refusal {}

// Measured pulses: which slot each becomes, and what is refused. A card that captures the line gives a pulse's width as
// a least and a most tick count; what becomes of it is said by definitions (`specs/`), with the laws that a user relies
// on (`proofs/`). The code is `capture`, but for a range in its word and the error that stands here.
#![tactic(auto)]

ghost use Rattle.std.specs.Prelude.{◌≡◌};
ghost use Rattle.pulses.specs.Conversion.{range_in, refusal_of};

use line::numbers::{REFUSED_PULSE, REFUSED_RANGES, REFUSED_SHORT_LIST};
use std::error::Error;
use std::fmt;

// The least and the most are the halves of a word.
pub const HALF: u32 = 0x1_0000;

// A closed range of widths, in ticks.
#[derive(Clone, Copy)]
pub struct Range {
    pub least: u16,
    pub most: u16,
}

impl Range {
    // A range as a word: the least in the lower half, the most in the upper. A measured pulse is one too.
    pub fn in_word(word: u32) -> Range
        ensures { result ≡ range_in word }
    {
        Range {
            least: (word % HALF) as u16,
            most: (word / HALF) as u16,
        }
    }
}

// The widths of each symbol.
#[derive(Clone, Copy)]
pub struct Setting {
    pub zero: Range,
    pub one: Range,
    pub start: Range,
}

// Why a list of pulses is not converted.
#[derive(Clone, Copy, Debug, PartialEq, Eq)]
pub enum PulsesError {
    ShortList,
    BadRanges,
    BadPulse,
}

impl PulsesError {
    // The number that stands for it where numbers are told.
    pub fn number(self) -> u32
        ensures { result ≡ refusal_of self }
    {
        match self {
            PulsesError::ShortList => REFUSED_SHORT_LIST as u32,
            PulsesError::BadRanges => REFUSED_RANGES as u32,
            PulsesError::BadPulse => REFUSED_PULSE as u32,
        }
    }
}

impl fmt::Display for PulsesError {
    fn fmt<W: fmt::Write>(&self, f: &mut fmt::Formatter<W>) -> fmt::Result {
        f.write_str(match self {
            PulsesError::ShortList => "the list has no room for a slot of each pulse",
            PulsesError::BadRanges => "a range has its least above its most, or two ranges meet",
            PulsesError::BadPulse => "a pulse has its least above its most",
        })
    }
}

impl Error for PulsesError {}

// What a conversion is said to come to: how many slots there are, and what is said besides.
ghost use Rattle.std.specs.Prelude.{◌≡◌, ◌≤◌};
ghost use Rattle.iebus_slots.specs.Output.{given_of, message_of};

use pulses::PulsesError;
use std::fmt;
use words::{LeftOver, left_over};

#[derive(Clone, Copy, Debug, PartialEq, Eq)]
pub(crate) enum Message {
    Left(LeftOver),
    BadRanges,
    BadPulse,
}

impl fmt::Display for Message {
    fn fmt<W: fmt::Write>(&self, f: &mut fmt::Formatter<W>) -> fmt::Result {
        match self {
            Message::Left(left) => left.fmt(f),
            Message::BadRanges => f.write_str("refused 19"),
            Message::BadPulse => f.write_str("refused 20"),
        }
    }
}

// The bytes of the pulses that are read.
const MOST_BYTES: usize = 65536;

#[tactic(auto, unfolding(crate::specs::Output::message_of))]
pub(crate) fn told(ended: Result<(), PulsesError>, bytes: usize) -> Option<Message>
    ensures { result ≡ message_of ended bytes }
{
    match ended {
        Ok(()) => left_over(bytes, MOST_BYTES).map(Message::Left),
        Err(PulsesError::ShortList) => None,
        Err(PulsesError::BadRanges) => Some(Message::BadRanges),
        Err(PulsesError::BadPulse) => Some(Message::BadPulse),
    }
}

// How many of so many pulses got a slot: all, or none where the call was refused.
pub(crate) fn given(ended: Result<(), PulsesError>, count: usize) -> usize
    ensures { (result ≡ given_of ended count) × (result ≤ count) }
{
    match ended {
        Ok(()) => count,
        Err(_) => 0,
    }
}

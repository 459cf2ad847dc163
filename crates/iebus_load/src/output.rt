// What is said of a log.
ghost use Rattle.std.specs.Prelude.{◌≡◌};
ghost use Rattle.iebus_load.specs.Output.{message_of};

use loads::{LoadError, Peak};
use std::fmt;
use words::{LeftOver, left_over};

#[derive(Clone, Copy, Debug, PartialEq, Eq)]
pub(crate) enum Message {
    Left(LeftOver),
    Empty,
    BadWindow,
    NoSlot,
}

impl fmt::Display for Message {
    fn fmt<W: fmt::Write>(&self, f: &mut fmt::Formatter<W>) -> fmt::Result {
        match self {
            Message::Left(left) => left.fmt(f),
            Message::Empty => f.write_str("empty"),
            Message::BadWindow => f.write_str("refused 25"),
            Message::NoSlot => f.write_str("refused 16"),
        }
    }
}

// The bytes of the slots that are read.
const MOST_BYTES: usize = 262144;

#[tactic(auto, unfolding(crate::specs::Output::message_of))]
pub(crate) fn told(ended: Result<Option<Peak>, LoadError>, bytes: usize) -> Option<Message>
    ensures { result ≡ message_of ended bytes }
{
    match ended {
        Ok(Some(_)) => left_over(bytes, MOST_BYTES).map(Message::Left),
        Ok(None) => Some(Message::Empty),
        Err(LoadError::ShortList) => None,
        Err(LoadError::BadWindow) => Some(Message::BadWindow),
        Err(LoadError::NoSlot) => Some(Message::NoSlot),
    }
}

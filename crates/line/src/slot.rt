// What a word of kind 0 says of its slot.
ghost use Rattle.std.specs.Prelude.{◌≡◌};
ghost use Rattle.line.specs.Slot.{slot_of};

use crate::numbers::{SLOT_HIGH, SLOT_IDLE, SLOT_LOW, SLOT_START};

// A slot of the line: a settled level (false is 0), start or idle.
#[derive(Clone, Copy, Debug, PartialEq, Eq)]
pub enum Slot {
    Level(bool),
    Start,
    Idle,
}

// The slot that a word says. A word with any bit set above bits 1-0 says none, so a word of another kind says none too.
#[tactic(auto, unfolding(crate::specs::Slot::slot_of))]
pub fn slot_of(word: u32) -> Option<Slot>
    ensures { result ≡ slot_of word }
{
    match word {
        SLOT_LOW => Some(Slot::Level(false)),
        SLOT_HIGH => Some(Slot::Level(true)),
        SLOT_START => Some(Slot::Start),
        SLOT_IDLE => Some(Slot::Idle),
        _ => None,
    }
}

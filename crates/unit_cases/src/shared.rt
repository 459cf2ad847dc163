// The slots of the line that a unit shares with another party.
use line::numbers::{SLOT_HIGH, SLOT_IDLE, SLOT_LOW, SLOT_START};
use line::slot::Slot;

const LOW: Slot = Slot::Level(false);

const HIGH: Slot = Slot::Level(true);

// What the other party drives in the slot that a character says, and what the line is to settle to.
pub(crate) fn slot_said(character: u8) -> Option<(Slot, Slot)> {
    match character {
        b'0' => Some((LOW, LOW)),
        b'1' | b'l' => Some((HIGH, HIGH)),
        b'o' => Some((HIGH, LOW)),
        b'S' => Some((Slot::Start, Slot::Start)),
        b's' => Some((HIGH, Slot::Start)),
        b'I' => Some((Slot::Idle, Slot::Idle)),
        _ => None,
    }
}

// The line settles to the wired AND of what its two parties drive, or to idle where neither drives anything; start is
// driven over either level.
pub(crate) fn settled(other: Slot, unit: Slot) -> Slot {
    match (other, unit) {
        (Slot::Start, _) | (_, Slot::Start) => Slot::Start,
        (_, Slot::Level(false)) => LOW,
        _ => other,
    }
}

pub(crate) fn slot_word(slot: Slot) -> u32 {
    match slot {
        Slot::Level(false) => SLOT_LOW,
        Slot::Level(true) => SLOT_HIGH,
        Slot::Start => SLOT_START,
        Slot::Idle => SLOT_IDLE,
    }
}

// What the unit drives after an answer.
pub(crate) fn driven(answer: u32) -> Slot {
    match answer >> 8 & 3 {
        SLOT_LOW => LOW,
        SLOT_START => Slot::Start,
        _ => HIGH,
    }
}

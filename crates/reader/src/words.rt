// What the numbers in a record's words are multiplied by, each where its bits begin.
pub(crate) const AGAIN_WEIGHT: u32 = 0x10;

pub(crate) const BIT_WEIGHT: u32 = 0x20;

pub(crate) const CONTROL_WEIGHT: u32 = 0x40;

pub(crate) const LENGTH_WEIGHT: u32 = 0x400;

pub(crate) const ACKED_WEIGHT: u32 = 0x8_0000;

// How many numbers the six bits of the ACKed bytes can hold.
pub(crate) const ACKED_NUMBERS: u32 = 0x40;

pub(crate) const UNACKED_WEIGHT: u32 = 0x200_0000;

// In the second word the slave stands above the master, and in a byte's word the attempts above the byte.
pub(crate) const SLAVE_WEIGHT: u32 = 0x1000;

pub(crate) const ATTEMPTS_WEIGHT: u32 = 0x100;

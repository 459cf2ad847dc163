// The figures of document 01 and of the tickets, each named once for the code of every library. `specs/Numbers.antt`
// names them for the definitions; a proof that uses a figure fails where the two differ.
ghost use Rattle.std.specs.Prelude.{◌≡◌};
ghost use Rattle.line.specs.Numbers.{attempts_of};

// Words: the kind is in the top four bits, "0, slot", "1, register write", "2, register read", then the answers.
pub const KIND_SLOT: u32 = 0;

pub const KIND_WRITE: u32 = 1;

pub const KIND_READ: u32 = 2;

pub const KIND_TAKEN: u32 = 8;

pub const KIND_WRITTEN: u32 = 9;

pub const KIND_VALUE: u32 = 10;

pub const KIND_REFUSED: u32 = 15;

// A slot word: "bits 1-0 are 0 or 1 (settled level), 2 (start), 3 (idle)".
pub const SLOT_LOW: u32 = 0;

pub const SLOT_HIGH: u32 = 1;

pub const SLOT_START: u32 = 2;

pub const SLOT_IDLE: u32 = 3;

// "what the unit drives in the next slot: 0, 1 (released) or 2 (start)".
pub const DRIVE_LOW: u8 = 0;

pub const DRIVE_RELEASED: u8 = 1;

pub const DRIVE_START: u8 = 2;

// Refused because of the input.
pub const REFUSED_KIND: u8 = 1;

pub const REFUSED_STRAY_BIT: u8 = 2;

pub const REFUSED_REGISTER: u8 = 3;

pub const REFUSED_VALUE: u8 = 4;

pub const REFUSED_BYTE_COUNT: u8 = 11;

pub const REFUSED_SHORT_LIST: u8 = 12;

pub const REFUSED_CONTENDER_COUNT: u8 = 13;

pub const REFUSED_CONTENDER_RANGE: u8 = 14;

pub const REFUSED_CONTENDERS_ALIKE: u8 = 15;

pub const REFUSED_NO_SLOT: u8 = 16;

pub const REFUSED_RANGES: u8 = 19;

pub const REFUSED_PULSE: u8 = 20;

pub const REFUSED_ROLL_FULL: u8 = 21;

pub const REFUSED_ROLL_ALIKE: u8 = 22;

pub const REFUSED_ROLL_ABSENT: u8 = 23;

pub const REFUSED_WINDOW: u8 = 25;

// The bytes that keep a unit or a roll between calls are too few or too many: none of the papers' numbers.
pub const BAD_SIZE: u32 = 100;

// Refused because of the state.
pub const REFUSED_LEVEL: u8 = 5;

pub const REFUSED_OUT_OF_TURN: u8 = 6;

pub const REFUSED_FULL: u8 = 7;

pub const REFUSED_TOO_FEW: u8 = 8;

pub const REFUSED_EMPTY: u8 = 9;

pub const REFUSED_UNABLE: u8 = 10;

// Frame: "length 00H means 256", "at most 16 attempts (mode 0) or 32 (mode 1)".
pub const LENGTH_OF_ZERO: u16 = 256;

pub const ATTEMPTS_MODE_0: u8 = 16;

pub const ATTEMPTS_MODE_1: u8 = 32;

// How many attempts a frame can have, in mode 1 where it is `long`.
pub fn attempts(long: bool) -> u8
    ensures { result ≡ attempts_of long }
{
    if long {
        ATTEMPTS_MODE_1
    } else {
        ATTEMPTS_MODE_0
    }
}

pub const GENERAL_BROADCAST: u16 = 0xFFF;

// Buffers: "TBF, 33 bytes", "RBF, 40 bytes".
pub const TBF_BYTES: usize = 33;

pub const RBF_BYTES: usize = 40;

// Registers: "Written: 0H CTR .. EH TBF", "Read: 0H STR .. EH RBF".
pub const REG_CTR: u8 = 0x0;

pub const REG_CMR: u8 = 0x1;

pub const REG_UAR1: u8 = 0x2;

pub const REG_UAR2: u8 = 0x3;

pub const REG_SAR1: u8 = 0x4;

pub const REG_SAR2: u8 = 0x5;

pub const REG_MCR: u8 = 0x6;

pub const REG_TBF: u8 = 0xE;

pub const REG_STR: u8 = 0x0;

pub const REG_FLG: u8 = 0x1;

pub const REG_RDR1: u8 = 0x2;

pub const REG_RDR2: u8 = 0x3;

pub const REG_LOR1: u8 = 0x4;

pub const REG_LOR2: u8 = 0x5;

pub const REG_RCR: u8 = 0x8;

pub const REG_RBF: u8 = 0xE;

// "CTR (00H nothing, 08H reset, 10H set SLRE)"; "CMR (08H master request, 0BH offer slave data, 0FH clear SLRE, ..
// 40H copy the lock into LOR ..)".
pub const CTR_NOTHING: u8 = 0x00;

pub const CTR_RESET: u8 = 0x08;

pub const CTR_SET_SLRE: u8 = 0x10;

pub const CMR_REQUEST: u8 = 0x08;

pub const CMR_OFFER: u8 = 0x0B;

pub const CMR_CLEAR_SLRE: u8 = 0x0F;

pub const CMR_COPY_LOCK: u8 = 0x40;

// "Codes, in the order started, data wanted or full, normal, aborted: 0 to 3 sending, 4 to 7 receiving, 8 to 11
// broadcast reception": the first of each kind, and how far behind it the others are; only a sending can want data.
// "RCR FFH" is none of them.
pub const CODE_SENDING: u8 = 0;

pub const CODE_RECEIVING: u8 = 4;

pub const CODE_BROADCAST_RECEIVING: u8 = 8;

pub const CODE_WANTED: u8 = 1;

pub const CODE_NORMAL: u8 = 2;

pub const CODE_ABORTED: u8 = 3;

pub const CODE_AT_RESET: u8 = 15;

// The contest: at most 50 contenders, an address of twelve bits, lost in slots "2 to 14, start being 1".
pub const MOST_CONTENDERS: usize = 50;

pub const HIGHEST_ADDRESS: u16 = 0xFFF;

pub const CONTEST_SLOTS: u32 = 13;

pub const LAST_CONTEST_SLOT: u32 = 14;

// A roll as bytes that a host keeps: the count, then 50 requests of two bytes.
pub const ROLL_BYTES: usize = 101;

// The load: "among the latest w, w from 1 to 4,096".
pub const MOST_WINDOW: u32 = 4096;

// How a frame of a log ended, as its record has it: "whole, short after a complete attempt, NAK at slave address,
// control or length, broken off in which field".
pub const END_WHOLE: u32 = 0;

pub const END_SHORT: u32 = 1;

pub const END_NAK_SLAVE: u32 = 2;

pub const END_NAK_CONTROL: u32 = 3;

pub const END_NAK_LENGTH: u32 = 4;

pub const END_BROKEN_BIT: u32 = 5;

pub const END_BROKEN_MASTER: u32 = 6;

pub const END_BROKEN_SLAVE: u32 = 7;

pub const END_BROKEN_CONTROL: u32 = 8;

pub const END_BROKEN_LENGTH: u32 = 9;

pub const END_BROKEN_DATA: u32 = 10;

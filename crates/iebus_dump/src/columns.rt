// The columns of a frame's line.
ghost use Rattle.std.specs.Prelude.{◌≡◌, ◌++◌, ◌%◌, ◌<◌, [], ltb};
ghost use Rattle.line.specs.Choice.{pick};
ghost use Rattle.logs.specs.Relied.{fields_at};
ghost use Rattle.iebus_dump.specs.Line.{ending_column, length_column, mark_column, route_column};
ghost use Rattle.iebus_dump.specs.Writing.{digit_shown, frame_by, kind_by, name_shown};

use line::numbers::{
    END_BROKEN_BIT, END_BROKEN_CONTROL, END_BROKEN_DATA, END_BROKEN_LENGTH, END_BROKEN_MASTER,
    END_BROKEN_SLAVE, END_NAK_CONTROL, END_NAK_LENGTH, END_NAK_SLAVE, END_SHORT, END_WHOLE,
};

// How many fields are given where a frame ended so. By its number, as a record's word has it and as `fields_at` goes by
// it: an enum is no plainer, as it needs a table of the same numbers first.
#[tactic(auto, unfolding(logs::specs::Relied::fields_at))]
pub(crate) fn given(ending: u32) -> u8
    requires { ending < 16 }
    ensures { result ≡ fields_at ending }
{
    match ending {
        END_WHOLE | END_SHORT | END_NAK_LENGTH | END_BROKEN_DATA => 5,
        END_NAK_CONTROL | END_BROKEN_LENGTH => 4,
        END_NAK_SLAVE | END_BROKEN_CONTROL => 3,
        END_BROKEN_SLAVE => 2,
        END_BROKEN_MASTER => 1,
        _ => 0,
    }
}

// A capital digit of the lowest four bits, or a dash. A flag and no `Option`: it is the same for all digits of a field,
// whose number is cut up first.
pub(crate) fn digit(given: bool, n: u32) -> u8
    ensures { result ≡ digit_shown given n }
{
    let low = n % 16;
    if !given {
        b'-'
    } else if low < 10 {
        (48 + low) as u8
    } else {
        (55 + low) as u8
    }
}

// A decimal digit, which is the lowest.
fn decimal(given: bool, n: u32) -> u8
    ensures { result ≡ digit_shown given (n % 10) }
{
    digit(given, n % 10)
}

pub(crate) fn route(place: u32, given: u8, master: u32, slave: u32) -> [u8; 18]
    ensures { result ≡ route_column place given master slave }
{
    [
        decimal(true, place / 10000),
        decimal(true, place / 1000),
        decimal(true, place / 100),
        decimal(true, place / 10),
        decimal(true, place),
        b' ',
        b' ',
        digit(1 < given, master / 0x100),
        digit(1 < given, master / 0x10),
        digit(1 < given, master),
        b' ',
        b'>',
        b' ',
        digit(2 < given, slave / 0x100),
        digit(2 < given, slave / 0x10),
        digit(2 < given, slave),
        b' ',
        b' ',
    ]
}

// To one or to all, and the digit of the control.
#[tactic(auto, unfolding(crate::specs::Writing::kind_by, crate::specs::Line::bit_column))]
pub(crate) fn kind(given: u8, bit: u32, control: u32) -> [u8; 6]
    ensures { result ≡ kind_by given bit control }
{
    let shown = digit(3 < given, control);
    if given == 0 {
        [b'-', b'-', b'-', b' ', shown, b' ']
    } else if bit == 0 {
        [b'a', b'l', b'l', b' ', shown, b' ']
    } else {
        [b'o', b'n', b'e', b' ', shown, b' ']
    }
}

// What the controls ask for.
static CONTROL_NAMES: [[u8; 13]; 16] = [
    *b"status       ",
    *b"undefined    ",
    *b"undefined    ",
    *b"read+lock    ",
    *b"holder low   ",
    *b"holder high  ",
    *b"status+unlock",
    *b"read         ",
    *b"undefined    ",
    *b"undefined    ",
    *b"command+lock ",
    *b"data+lock    ",
    *b"undefined    ",
    *b"undefined    ",
    *b"command      ",
    *b"data         ",
];

// What a control asks for, if it is given.
pub(crate) fn name(given: u8, control: u32) -> &'static [u8; 13]
    requires { control < 16 }
    ensures { result.now ≡ name_shown given control }
{
    if given < 4 {
        b"-            "
    } else {
        &CONTROL_NAMES[control as usize]
    }
}

pub(crate) fn length(given: u8, length: u32) -> [u8; 4]
    ensures { result ≡ length_column given length }
{
    [
        b' ',
        decimal(4 < given, length / 100),
        decimal(4 < given, length / 10),
        decimal(4 < given, length),
    ]
}

// How the frame ended, by its number for the same reason.
pub(crate) fn ending(ending: u32) -> &'static [u8]
    ensures { result.now ≡ ending_column ending }
{
    match ending {
        END_WHOLE => b"  whole",
        END_SHORT => b"  short",
        END_NAK_SLAVE => b"  NAK at slave address",
        END_NAK_CONTROL => b"  NAK at control",
        END_NAK_LENGTH => b"  NAK at length",
        END_BROKEN_BIT => b"  broken off in broadcast bit",
        END_BROKEN_MASTER => b"  broken off in master address",
        END_BROKEN_SLAVE => b"  broken off in slave address",
        END_BROKEN_CONTROL => b"  broken off in control",
        END_BROKEN_LENGTH => b"  broken off in length",
        END_BROKEN_DATA => b"  broken off in data",
        _ => b"  ",
    }
}

// The mark, and the end of the line.
#[tactic(auto, unfolding(crate::specs::Line::mark_column))]
pub(crate) fn mark(first: u32) -> &'static [u8]
    ensures { result.now ≡ mark_column (frame_by first 0 []).again }
{
    if first / 0x10 % 2 == 1 {
        b", again\n"
    } else {
        b"\n"
    }
}

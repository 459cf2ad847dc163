// The registers and the frame under way, as bytes and back.
ghost use Rattle.std.specs.Prelude.{[], ◌∷◌, ◌++◌, ◌≡◌};
ghost use Rattle.line.specs.Choice.{bit_of};
ghost use Rattle.keeping.specs.Decode.{flag_of, frame_in, joined, place_of, registers_in};
ghost use Rattle.keeping.specs.Encode.{FrameFits, RegistersFit, frame_bytes, high, low, place_count, place_number};
ghost use Rattle.keeping.specs.Encode.{register_bytes};

use crate::layout::{FRAME_BYTES, REGISTERS_END};
use place::{Field, Frame, Place};
use rules::state::Registers;

// A number of 16 bits takes two bytes, the lower first.
fn bytes(n: u16) -> [u8; 2]
    ensures { result ≡ low n ∷ high n ∷ [] }
{
    n.to_le_bytes()
}

fn pair(low: u8, high: u8) -> u16
    ensures { result ≡ joined low high }
{
    u16::from_le_bytes([low, high])
}

// Every byte is a flag: its lowest bit.
pub(crate) fn flag(byte: u8) -> bool
    ensures { result ≡ flag_of byte }
{
    byte % 2 == 1
}

#[tactic(auto, unfolding(keeping::specs::Encode::register_bytes))]
pub(crate) fn registers_bytes(r: Registers) -> [u8; REGISTERS_END]
    ensures value { result ≡ register_bytes r }
    ensures fit { RegistersFit r }
{
    let own = bytes(r.own);
    let slave = bytes(r.slave);
    let holder = bytes(r.holder);
    [
        own[0],
        own[1],
        u8::from(r.enabled),
        u8::from(r.long),
        slave[0],
        slave[1],
        u8::from(r.bit),
        r.retries,
        r.control,
        u8::from(r.marq),
        u8::from(r.strq),
        u8::from(r.slre),
        r.losses,
        r.lor1,
        r.lor2,
        r.rdr1,
        r.rdr2,
        r.marc,
        r.slrc,
        u8::from(r.locked),
        holder[0],
        holder[1],
    ]
}

#[tactic(auto, unfolding(keeping::specs::Decode::registers_in))]
pub(crate) fn registers_from(b: &[u8; REGISTERS_END]) -> Registers
    ensures { result ≡ registers_in b.now }
{
    Registers {
        own: pair(b[0], b[1]),
        enabled: flag(b[2]),
        long: flag(b[3]),
        slave: pair(b[4], b[5]),
        bit: flag(b[6]),
        retries: b[7],
        control: b[8],
        marq: flag(b[9]),
        strq: flag(b[10]),
        slre: flag(b[11]),
        losses: b[12],
        lor1: b[13],
        lor2: b[14],
        rdr1: b[15],
        rdr2: b[16],
        marc: b[17],
        slrc: b[18],
        locked: flag(b[19]),
        holder: pair(b[20], b[21]),
    }
}

// Its number, and its count in the field.
#[tactic(auto, unfolding(keeping::specs::Encode::place_number, keeping::specs::Encode::place_count))]
fn place_bytes(place: Place) -> [u8; 2]
    ensures { result ≡ place_number place ∷ place_count place ∷ [] }
{
    match place {
        Place::Waiting => [0, 0],
        Place::In(Field::Broadcast, n) => [1, n],
        Place::In(Field::Master, n) => [2, n],
        Place::In(Field::Slave, n) => [3, n],
        Place::In(Field::Control, n) => [4, n],
        Place::In(Field::Length, n) => [5, n],
        Place::In(Field::Data, n) => [6, n],
    }
}

// A number past the last field counts as waiting. No From, as above: neither type is of this crate.
#[tactic(auto, unfolding(keeping::specs::Decode::place_of))]
fn place_of(number: u8, n: u8) -> Place
    ensures { result ≡ place_of number n }
{
    match number {
        1 => Place::In(Field::Broadcast, n),
        2 => Place::In(Field::Master, n),
        3 => Place::In(Field::Slave, n),
        4 => Place::In(Field::Control, n),
        5 => Place::In(Field::Length, n),
        6 => Place::In(Field::Data, n),
        _ => Place::Waiting,
    }
}

#[tactic(auto, unfolding(keeping::specs::Encode::frame_bytes))]
pub(crate) fn frame_bytes(f: Frame, idle: bool) -> [u8; FRAME_BYTES]
    ensures value { result ≡ frame_bytes f ++ bit_of idle ∷ [] }
    ensures fit { FrameFits f }
{
    let place = place_bytes(f.place);
    let shift = bytes(f.shift);
    let master = bytes(f.master);
    let slave = bytes(f.slave);
    let length = bytes(f.length);
    let acked = bytes(f.acked);
    [
        place[0],
        place[1],
        shift[0],
        shift[1],
        u8::from(f.broadcast),
        master[0],
        master[1],
        u8::from(f.sound),
        slave[0],
        slave[1],
        f.control,
        length[0],
        length[1],
        f.attempts,
        acked[0],
        acked[1],
        u8::from(f.ack),
        u8::from(f.leads),
        u8::from(f.sends),
        f.byte,
        f.limit,
        u8::from(idle),
    ]
}

#[tactic(auto, unfolding(keeping::specs::Decode::frame_in))]
pub(crate) fn frame_from(b: &[u8; FRAME_BYTES]) -> Frame
    ensures { result ≡ frame_in b.now }
{
    Frame {
        place: place_of(b[0], b[1]),
        shift: pair(b[2], b[3]),
        broadcast: flag(b[4]),
        master: pair(b[5], b[6]),
        sound: flag(b[7]),
        slave: pair(b[8], b[9]),
        control: b[10],
        length: pair(b[11], b[12]),
        attempts: b[13],
        acked: pair(b[14], b[15]),
        ack: flag(b[16]),
        leads: flag(b[17]),
        sends: flag(b[18]),
        byte: b[19],
        limit: b[20],
    }
}

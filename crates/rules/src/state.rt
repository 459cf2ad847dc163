// The state of a unit without the bytes of its buffers, and what passes between its parts.
use place::Frame;

// The registers, flags and codes, and the lock: what lasts, without the buffers.
#[derive(Clone, Copy)]
pub struct Registers {
    // UAR: own address, sending enabled, mode 1
    pub own: u16,
    pub enabled: bool,
    pub long: bool,
    // SAR
    pub slave: u16,
    // MCR: the broadcast bit as on the wire, retries, control
    pub bit: bool,
    pub retries: u8,
    pub control: u8,
    // FLG
    pub marq: bool,
    pub strq: bool,
    pub slre: bool,
    // contests lost by the request that stands
    pub losses: u8,
    pub lor1: u8,
    pub lor2: u8,
    pub rdr1: u8,
    pub rdr2: u8,
    // RCR: two codes of four bits. They are numbers, since the bytes that a host keeps can hold any
    pub marc: u8,
    pub slrc: u8,
    // the lock, and the master that holds it. These are two, and no Option: the bytes that a host keeps have both, and
    // give back a state with any holder beside an open lock (`decoded`)
    pub locked: bool,
    pub holder: u16,
}

// All of the unit but its buffers: what lasts, the frame under way, and whether the latest slot was idle.
#[derive(Clone, Copy)]
pub struct Core {
    pub regs: Registers,
    pub frame: Frame,
    pub idle: bool,
}

// What a slot rests on of the buffers: how many bytes wait in TBF, the next of them, and whether RBF is empty.
#[derive(Clone, Copy)]
pub struct Seen {
    pub waiting: usize,
    pub front: u8,
    pub clear: bool,
}

// What a slot does to the buffers. `Nothing` is one case among the others, as in `place::Event`.
#[derive(Clone, Copy, Debug, PartialEq, Eq)]
pub enum Act {
    Nothing,
    // the next byte leaves TBF
    Take,
    // TBF is emptied
    Empty,
    // the three bytes that begin a reception go into RBF
    Header(u8, u8, u8),
    // a byte goes into RBF
    Byte(u8),
}

#[derive(Clone, Copy)]
pub struct Acted {
    pub core: Core,
    pub act: Act,
}

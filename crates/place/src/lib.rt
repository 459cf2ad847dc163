// The place of a unit in a frame, what it keeps of the frame under way, what it sees of its unit, and what a slot
// brings about. The rules of a frame are definitions over these (`specs/`). There is no code here: `moves`, `driving`
// and `frame` are the code, each function of it equal to what the rules give.
#![tactic(auto)]

// The fields of a frame, in their order.
#[derive(Clone, Copy, Debug, PartialEq, Eq)]
pub enum Field {
    Broadcast,
    Master,
    Slave,
    Control,
    Length,
    Data,
}

// "A unit's place in a frame is a field with its count, or waiting for a start." The count goes over the field's bits,
// then P and, from the slave address on, A. It is no Option of a field and a count: the paper asks for this enum, and
// its words say which place that is.
#[derive(Clone, Copy, Debug, PartialEq, Eq)]
pub enum Place {
    Waiting,
    In(Field, u8),
}

// The frame under way. While the place is waiting, nothing else of it is read, and a start slot builds it afresh.
#[derive(Clone, Copy, Debug, PartialEq, Eq)]
pub struct Frame {
    pub place: Place,
    // the bits of the field so far
    pub shift: u16,
    pub broadcast: bool,
    pub master: u16,
    // the parity of the master address held
    pub sound: bool,
    pub slave: u16,
    pub control: u8,
    pub length: u16,
    pub attempts: u8,
    // bytes ACKed
    pub acked: u16,
    // the judgement made at P: what this unit gives at A
    pub ack: bool,
    // this unit is a master in the frame, took part from the start slot and has not lost
    pub leads: bool,
    // this unit sends the length and the data. The byte is no Option behind it, since the bytes that a host keeps can
    // have both, and give them back (`decoded`)
    pub sends: bool,
    // the length or the byte that it sends
    pub byte: u8,
    // attempts that the frame can have, by the mode at its start slot
    pub limit: u8,
}

// What a frame sees of its unit: its address; broadcast bit (as on the wire), slave address and control of its request
// as master; and what a slave's judgements rest on.
#[derive(Clone, Copy, Debug, PartialEq, Eq)]
pub struct View {
    pub own: u16,
    pub bit: bool,
    pub slave: u16,
    pub control: u8,
    pub strq: bool,
    // SLRE is set and RBF is empty
    pub ready: bool,
    // as in the registers, of which this is seen: two, and no Option
    pub locked: bool,
    pub holder: u16,
}

// What a slot brings about, for the unit to act on. `Nothing` is one case among the others, since whoever acts on an
// event goes through all of them at one place: an Option round the rest would split each such table in two.
#[derive(Clone, Copy, Debug, PartialEq, Eq)]
pub enum Event {
    Nothing,
    // the contest is lost; the unit goes on as a receiver
    Lost,
    // the P slot of the master address is past
    Addressed,
    // the control is ACKed, and the length field begins
    ControlAcked,
    // the length is ACKed, and the first data field begins
    LengthAcked,
    // a byte is ACKed, and the next data field begins
    ByteAcked,
    // all bytes are ACKed, and the frame ends
    AllAcked,
    // a byte is ACKed in the frame's last attempt, not the last byte, and the frame ends
    ShortAcked,
    // the unit's part in the frame ends before all bytes are ACKed, with none ACKed in this slot
    Aborted,
}

#[derive(Clone, Copy, Debug, PartialEq, Eq)]
pub struct Moved {
    pub frame: Frame,
    pub event: Event,
}

// What part a slave has in what follows a control that it ACKs.
#[derive(Clone, Copy, Debug, PartialEq, Eq)]
pub enum Part {
    Sends,
    Receives,
}

// How a frame ended.
ghost use Rattle.std.specs.Prelude.{◌≡◌, ◌≤◌};
ghost use Rattle.reader.specs.Endings.{ending_number};

use line::numbers::{
    END_BROKEN_BIT, END_BROKEN_CONTROL, END_BROKEN_DATA, END_BROKEN_LENGTH, END_BROKEN_MASTER,
    END_BROKEN_SLAVE, END_NAK_CONTROL, END_NAK_LENGTH, END_NAK_SLAVE, END_SHORT, END_WHOLE,
};

// Whole, short after a complete attempt, with NAK or broken off, and in which field.
#[derive(Clone, Copy, Debug, PartialEq, Eq)]
pub enum Ending {
    Whole,
    Short,
    NakSlave,
    NakControl,
    NakLength,
    BrokenBit,
    BrokenMaster,
    BrokenSlave,
    BrokenControl,
    BrokenLength,
    BrokenData,
}

impl Ending {
    // The number that a record's first word has of it.
    pub(crate) fn number(self) -> u32
        ensures { (result ≡ ending_number self) × (result ≤ 10) }
    {
        match self {
            Ending::Whole => END_WHOLE,
            Ending::Short => END_SHORT,
            Ending::NakSlave => END_NAK_SLAVE,
            Ending::NakControl => END_NAK_CONTROL,
            Ending::NakLength => END_NAK_LENGTH,
            Ending::BrokenBit => END_BROKEN_BIT,
            Ending::BrokenMaster => END_BROKEN_MASTER,
            Ending::BrokenSlave => END_BROKEN_SLAVE,
            Ending::BrokenControl => END_BROKEN_CONTROL,
            Ending::BrokenLength => END_BROKEN_LENGTH,
            Ending::BrokenData => END_BROKEN_DATA,
        }
    }
}

// Where the parts of a unit lie in the bytes that keep it, named once for the code. `Layout.antt` in
// `crates/keeping/specs/` has the table, and names them for the definitions; a proof that uses a figure fails where the
// two differ.
pub(crate) const REGISTERS_END: usize = 22;

pub(crate) const FRAME_END: usize = 44;

pub(crate) const IDLE_PLACE: usize = 43;

pub(crate) const TBF_END: usize = 78;

// How many bytes keep a unit.
pub(crate) const STATE_BYTES: usize = 119;

// How many bytes the frame takes, with the latest slot.
pub(crate) const FRAME_BYTES: usize = FRAME_END - REGISTERS_END;

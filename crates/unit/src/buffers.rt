// The two buffers with their bytes.
ghost use Rattle.std.specs.Prelude.{◌≡◌, replicate};
ghost use Rattle.circles.specs.Calls.{vacant};

use circles::Span;
use line::numbers::{RBF_BYTES, TBF_BYTES};

// A buffer that holds its bytes, in an array of so many places.
#[derive(Clone, Copy)]
pub struct Buffer<const ROOM: usize> {
    pub bytes: [u8; ROOM],
    pub span: Span,
}

// "TBF, 33 bytes".
pub type Tbf = Buffer<TBF_BYTES>;

// "RBF, 40 bytes".
pub type Rbf = Buffer<RBF_BYTES>;

impl<const ROOM: usize> Buffer<ROOM> {
    // As a reset leaves it: it holds none, and 0 stands in each place.
    pub(crate) fn empty() -> Buffer<ROOM>
        ensures { result ≡ record { bytes = replicate ROOM 0; span = vacant } }
    {
        Buffer {
            bytes: [0; ROOM],
            span: Span::EMPTY,
        }
    }
}

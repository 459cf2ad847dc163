// The buffers as bytes and back: a count, then the bytes, the oldest first.
ghost use Rattle.std.specs.Prelude.{◌≡◌, ◌+◌, ◌<◌, length};
ghost use Rattle.circles.specs.Circle.{circle_of, held_of};
ghost use Rattle.keeping.specs.Decode.{buffer_in};
ghost use Rattle.keeping.specs.Encode.{buffer_bytes};

use circles::Span;
use unit::buffers::Buffer;

// The bytes that a buffer holds, the oldest first.
fn unroll<const ROOM: usize>(to: &mut [u8], buffer: &Buffer<ROOM>)
    requires { length to.old ≡ held_of ROOM buffer.now.span.count }
    ensures { to.new ≡ circle_of ROOM buffer.now.bytes buffer.now.span }
{
    for (k, byte) in to.iter_mut().enumerate() {
        *byte = buffer.bytes[buffer.span.place(ROOM, k)];
    }
}

// A buffer, unrolled so that the oldest byte comes first, behind the count of those that it holds; zeros stand in the
// places that hold none, so that a buffer is spelled in one way only. A slice, as is what is read below: the kit has no
// array of ROOM + 1 places.
pub(crate) fn put_buffer<const ROOM: usize>(to: &mut [u8], buffer: Buffer<ROOM>)
    requires { (length to.old ≡ ROOM + 1) × (ROOM < 256) }
    ensures { to.new ≡ buffer_bytes ROOM (circle_of ROOM buffer.entry.bytes buffer.entry.span) }
{
    let count = buffer.span.held(ROOM);
    let end = count + 1;
    to[0] = count as u8;
    unroll(&mut to[1..end], &buffer);
    to[end..].fill(0);
}

// A count past the room counts as full, as every span's does.
pub(crate) fn buffer_from<const ROOM: usize>(b: &[u8]) -> Buffer<ROOM>
    requires { length b.now ≡ ROOM + 1 }
    ensures { circle_of ROOM result.bytes result.span ≡ buffer_in ROOM b.now }
{
    let mut bytes = [0; ROOM];
    bytes.copy_from_slice(&b[1..]);
    let span = Span {
        first: 0,
        count: b[0] as usize,
    };
    Buffer { bytes, span }
}

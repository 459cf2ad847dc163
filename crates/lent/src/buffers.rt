// The two buffers, each a lent circle of bytes with the span that says where they lie. What changes a buffer says how
// each place of it stands afterwards; that this is a queue, and moves no byte, are laws of `circles`. What takes bytes
// out is not lent the array.
ghost use Rattle.std.specs.Prelude.{◌≡◌, get_or};
ghost use Rattle.line.specs.Numbers.{rbf_bytes};
ghost use Rattle.circles.specs.Buffers.{stored_by};
ghost use Rattle.circles.specs.Calls.{popped, pushed, turns};
ghost use Rattle.circles.specs.Circle.{buffer, circle_of};
ghost use Rattle.lent.specs.Both.{Clear, Length, Sends};

use circles::Span;
use line::numbers::{RBF_BYTES, TBF_BYTES};
use rules::state::Act;

// How many bytes are held.
pub(crate) fn count_of(room: usize, span: Span) -> usize
    ensures { Length room span result }
{
    span.held(room)
}

// Whether none is.
#[tactic(auto, unfolding(rules::specs::State::is_empty))]
pub(crate) fn is_clear(room: usize, span: Span) -> bool
    ensures { Clear room span result }
{
    count_of(room, span) == 0
}

// Without the oldest byte; where there is none, as it was.
#[tactic(auto, unfolding(circles::specs::Calls::popped))]
pub(crate) fn without_oldest(room: usize, span: Span) -> Span
    ensures { result ≡ popped room span }
{
    let count = span.held(room);
    if count == 0 {
        return span;
    }
    Span {
        first: span.place(room, 1),
        count: count - 1,
    }
}

// The oldest byte; 0 where there is none.
#[tactic(auto, unfolding(circles::specs::Circle::circle_of, circles::specs::Circle::items))]
pub(crate) fn front<const ROOM: usize>(bytes: &[u8; ROOM], span: Span) -> u8
    ensures { result ≡ get_or (circle_of ROOM bytes.now span) 0 0 }
{
    if span.held(ROOM) == 0 {
        return 0;
    }
    bytes[span.place(ROOM, 0)]
}

// A byte behind the others, where there is room.
#[tactic(auto, unfolding(circles::specs::Calls::pushed))]
pub(crate) fn push<const ROOM: usize>(bytes: &mut [u8; ROOM], span: Span, byte: u8) -> Span
    ensures { buffer bytes.new result ≡ pushed ROOM (buffer bytes.old span) byte }
{
    if ROOM <= span.count {
        return span;
    }
    bytes[span.place(ROOM, span.count)] = byte;
    Span {
        first: span.first,
        count: span.count + 1,
    }
}

// What a slot does to TBF.
#[tactic(auto, unfolding(circles::specs::Buffers::sent_by))]
pub(crate) fn tbf_after(act: Act, span: Span) -> Span
    ensures { Sends act span result }
{
    match act {
        Act::Take => without_oldest(TBF_BYTES, span),
        Act::Empty => Span::EMPTY,
        Act::Nothing | Act::Header(_, _, _) | Act::Byte(_) => span,
    }
}

// What a slot does to RBF.
#[tactic(auto, unfolding(circles::specs::Buffers::stored_by))]
pub(crate) fn rbf_after(act: Act, bytes: &mut [u8; RBF_BYTES], span: Span) -> Span
    ensures { buffer bytes.new result
        ≡ turns rbf_bytes (buffer bytes.old span) (stored_by act) }
{
    match act {
        Act::Nothing | Act::Take | Act::Empty => span,
        Act::Header(a, b, c) => {
            let one = push(bytes, span, a);
            let two = push(bytes, one, b);
            push(bytes, two, c)
        }
        Act::Byte(b) => push(bytes, span, b),
    }
}

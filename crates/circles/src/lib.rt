// A buffer in a circle: an array of bytes, and a span that says where its bytes lie. What a call does to it, what each
// word does to TBF and RBF, and that both are then the queues of the rules, are definitions and laws (`specs/`,
// `proofs/`); the code here is what a span says of its places, and `lent` is the code that changes a buffer. No
// function has a `requires`, and nothing is assumed.
#![tactic(auto)]

ghost use Rattle.std.specs.Prelude.{◌≡◌, ◌+◌, ◌<◌, ◌≤◌};
ghost use Rattle.circles.specs.Circle.{held_of, start_of, wrap};

// The place of the oldest byte, and how many there are, going round at the end. A count over the room counts as full,
// and a first place past the end as place 0, so that every value is a span. It lies
// apart from the bytes, which are lent: a word changes few of them, and copying them all took most of its time.
#[derive(Clone, Copy)]
pub struct Span {
    pub first: usize,
    pub count: usize,
}

impl Span {
    // That of a buffer that holds none.
    pub const EMPTY: Span = Span { first: 0, count: 0 };

    // How many bytes are held where there is room for so many.
    pub fn held(self, room: usize) -> usize
        ensures value { result ≡ held_of room self.count }
        ensures most { result ≤ room }
    {
        self.count.min(room)
    }

    // Where the byte lies, or would lie, that is so many places behind the oldest.
    pub fn place(self, room: usize, behind: usize) -> usize
        ensures value { result ≡ wrap room (start_of room self.first + behind) }
        ensures within { behind < room → result < room }
    {
        let first = if self.first < room { self.first } else { 0 };
        let to_end = room - first;
        if behind < to_end {
            first + behind
        } else {
            behind - to_end
        }
    }
}

// The slots of a log: where a frame begins and where its levels end, and the number that some of its levels make.
ghost use Rattle.std.specs.Prelude.{true, ◌≡◌, ◌+◌, ◌^◌, ◌<◌, ◌≤◌, [], drop, length, MatchOption};
ghost use Rattle.logs.specs.Frames.{Low, frames_of};
ghost use Rattle.logs.specs.Fields.{number_from};
ghost use Rattle.reader.specs.Reading.{LevelsAhead, LevelsEnd, NextStart, Overlaid};

use line::numbers::{SLOT_HIGH, SLOT_START};

// Words laid over each other: the result has each binary digit that one of them has, so it is below a power of two
// exactly if all of them are. To look at every word and test once is cheaper than a test of each.
fn overlaid(words: &[u32]) -> u32
    ensures { Overlaid words.now (length words.now) result }
{
    let mut digits = 0;
    for word in words {
        digits |= *word;
    }
    digits
}

// The place of the first start from a place on.
pub(crate) fn next_start(slots: &[u32], from: usize) -> Option<usize>
    requires { from ≤ length slots.now }
    ensures { MatchOption result (frames_of (drop from slots.now) ≡ []) (NextStart slots.now from) }
{
    let ahead = slots[from..].iter().position(|slot| *slot == SLOT_START)?;
    Some(from + ahead)
}

// Whether the eight slots from a place on are there, and all are levels.
fn eight_levels(slots: &[u32], i: usize) -> bool
    requires { i ≤ length slots.now }
    ensures { result ≡ true → LevelsAhead 8 slots.now i }
{
    if slots.len() - i < 8 {
        return false;
    }
    overlaid(&slots[i..i + 8]) <= SLOT_HIGH
}

// The place, from one on, of the first slot that is no level, the list's end where there is none. Eight slots in one
// test take a third of the instructions of eight tests.
pub(crate) fn levels_end(slots: &[u32], from: usize) -> usize
    requires { from ≤ length slots.now }
    ensures { LevelsEnd slots.now from result }
{
    // by hand: pieces of eight would be cut from the place, counted, and the place worked out again for the rest
    let mut i = from;
    while eight_levels(slots, i) {
        i += 8;
    }
    // by place, too: with `position` among the slots that are left, the eight before take two instructions more, and a
    // frame six
    for place in i..slots.len() {
        if SLOT_HIGH < slots[place] {
            return place;
        }
    }
    slots.len()
}

// The number that so many levels make, the highest bit first. What rests on it asks for `Low`, too: a type of levels
// would need lengths, places and parts of its own, where a slice has them.
pub(crate) fn number(levels: &[u32]) -> u32
    requires { (length levels.now ≤ 12) × Low levels.now }
    ensures { (result ≡ number_from 0 levels.now) × (result < 2 ^ length levels.now) }
{
    let mut n = 0;
    for level in levels {
        n = n * 2 + *level;
    }
    n
}

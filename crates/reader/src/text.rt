// The data of a frame: its attempts, ten slots each, of which the ACKed ones are written down.
ghost use Rattle.std.specs.Prelude.{◌≡◌, ◌+◌, ◌≤◌, drop, length};
ghost use Rattle.logs.specs.Frames.{Low};
ghost use Rattle.logs.specs.Data.{byte_in, counts, text_from};
ghost use Rattle.reader.specs.Endings.{ending_by};
ghost use Rattle.reader.specs.Texts.{Wrote, ending_in};

use crate::ending::Ending;
use crate::levels::number;
use crate::words::ATTEMPTS_WEIGHT;
use line::parity::parity_holds;

// Where the data begins among a frame's levels, and how many slots an attempt has.
pub(crate) const DATA_PLACE: usize = 44;

const ATTEMPT_SLOTS: usize = 10;

// How many bytes were ACKed, the complete attempts after the last of them, and how the frame ended.
#[derive(Clone, Copy)]
pub struct Body {
    pub acked: usize,
    pub unacked: u32,
    pub ending: Ending,
}

// Whether the attempt at the front counts as ACKed: a broadcast's by its parity alone, another one by A alone.
fn is_acked(levels: &[u32], broadcast: bool, byte: u32) -> bool
    requires { (10 ≤ length levels.now) × (byte ≡ byte_in levels.now) }
    ensures { result ≡ counts broadcast levels.now }
{
    if broadcast {
        parity_holds(byte, levels[8] == 1)
    } else {
        levels[9] == 0
    }
}

// How data ends that has no attempt more: so many bytes are missing, so many attempts left, and whether it was cut
// inside one.
fn text_ending(missing: u32, left: u32, cut: bool) -> Ending
    ensures { result ≡ ending_by (ending_in missing left cut) }
{
    if missing == 0 {
        return Ending::Whole;
    }
    if left == 0 {
        return Ending::Short;
    }
    if cut {
        Ending::BrokenData
    } else {
        Ending::Short
    }
}

// Writes the ACKed bytes of a frame that has data, each with its attempts, from a place of the records on. A list and a
// place, here and in `put_record`, and no part of the list: the bytes of the frame before are compared in it.
// Many frames have no data, and take fewer instructions where this is not inlined.
#[inline(never)]
pub(crate) fn put_text(
    levels: &[u32],
    broadcast: bool,
    bytes: u32,
    most: u32,
    records: &mut [u32],
    at: usize,
) -> Body
    requires low { Low levels.now × (44 ≤ length levels.now) × (most ≤ 32) }
    requires levels_bound { at + length levels.now ≤ 44 + length records.old }
    ensures { Wrote (text_from most broadcast bytes 0 (drop 44 levels.now)) at records.old result
        records.new }
{
    let mut rest = &levels[DATA_PLACE..];
    let mut left = most;
    let mut missing = bytes;
    let mut since: u32 = 0;
    let mut acked: usize = 0;
    // no `for`: of the three that end it each says at the end how much of it is left
    while (0 < left) & (0 < missing) & (ATTEMPT_SLOTS <= rest.len()) {
        let byte = number(&rest[..8]);
        let attempts = since + 1;
        if is_acked(rest, broadcast, byte) {
            records[at + acked] = byte + attempts * ATTEMPTS_WEIGHT;
            acked += 1;
            missing -= 1;
            since = 0;
        } else {
            since = attempts;
        }
        left -= 1;
        rest = &rest[ATTEMPT_SLOTS..];
    }
    Body {
        acked,
        unacked: since,
        ending: text_ending(missing, left, !rest.is_empty()),
    }
}

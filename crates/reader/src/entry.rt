// What the reader keeps of the frame before, and whether a frame says it again.
ghost use Rattle.std.specs.Prelude.{◌≡◌, ◌+◌, ◌≤◌, length};
ghost use Rattle.reader.specs.Entries.{EndsBy, acked_in, alike_entries, bytes_from};

use crate::head::Front;
use crate::words::{ACKED_NUMBERS, ACKED_WEIGHT};

// A frame whose bytes have been written, and where these stand in the records.
#[derive(Clone, Copy)]
pub struct Entry {
    pub front: Front,
    pub bytes: usize,
}

impl Entry {
    // How many bytes were ACKed.
    pub(crate) fn acked(self) -> usize
        ensures { result ≡ acked_in self }
    {
        (self.front.said / ACKED_WEIGHT % ACKED_NUMBERS) as usize
    }

    // The words of these bytes, each with its attempts.
    fn words(self, records: &[u32]) -> &[u32]
        requires { self.bytes + acked_in self ≤ length records.now }
        ensures { result.now ≡ bytes_from records.now self.bytes (acked_in self) }
    {
        &records[self.bytes..self.bytes + self.acked()]
    }
}

// Whether a frame says what the one before said.
#[tactic(auto, unfolding(crate::specs::Entries::alike_entries))]
pub(crate) fn alike(records: &[u32], before: Option<Entry>, entry: Entry) -> bool
    requires { EndsBy before (length records.now) × EndsBy (Some entry) (length records.now) }
    ensures { result ≡ alike_entries records.now before entry }
{
    match before {
        Some(before) => {
            before.front == entry.front && before.words(records) == entry.words(records)
        }
        None => false,
    }
}

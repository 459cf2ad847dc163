// A unit whose buffers are lent, and what it makes of every word.
ghost use Rattle.std.specs.Prelude.{◌≡◌};
ghost use Rattle.lent.specs.Both.{Acts, Clashes, Drives, Runs, Sees, SlotActs, SlotRefuses, SlotsOn};
ghost use Rattle.lent.specs.Both.{Works, done, reset_lent};

use crate::answer::{Outcome, answer_to};
use crate::buffers::{count_of, front, is_clear, rbf_after, tbf_after};
use crate::plain::plain;
use circles::Span;
use line::numbers::{DRIVE_LOW, KIND_SLOT, RBF_BYTES, SLOT_HIGH, TBF_BYTES};
use line::slot::{Slot, slot_of};
use output::core_drive;
use registers::reset_core;
use rules::answer::{Answer, Refusal};
use rules::state::{Acted, Core, Seen};
use slots::on_slot;

// All of a unit but the bytes of its buffers, which are lent.
#[derive(Clone, Copy)]
pub struct Lent {
    pub core: Core,
    pub tbf: Span,
    pub rbf: Span,
}

// What a step hands back where the buffers are lent: they are changed in place. No Result: a unit is left either way,
// and a list goes on from it.
#[derive(Clone, Copy)]
pub struct Answered {
    pub lent: Lent,
    pub answer: Answer,
}

// What a word leaves of a unit whose buffers are lent, and what it came to. No Result of the whole: a refused word too
// hands the unit on, as `step` does; where one of two whole units is picked, a read takes half as long again.
#[derive(Clone, Copy)]
pub(crate) struct Done {
    pub lent: Lent,
    pub came: Result<Outcome, Refusal>,
}

impl Lent {
    // "Reset: RCR FFH, MCR 80H, all else zero or empty, waiting for a start, idle not seen." The bytes lent stay as
    // they are.
    pub(crate) fn reset() -> Lent
        ensures { result ≡ reset_lent }
    {
        Lent {
            core: reset_core(),
            tbf: Span::EMPTY,
            rbf: Span::EMPTY,
        }
    }

    // What the unit drives in the next slot: 0, 1 (released) or 2 (start).
    #[tactic(auto, unfolding(rules::specs::Step::next_drive))]
    pub(crate) fn drive(self) -> u8
        ensures { Drives self result }
    {
        core_drive(self.core, is_clear(RBF_BYTES, self.rbf))
    }

    // What a slot rests on of the buffers.
    fn seen(self, tbf: &[u8; TBF_BYTES]) -> Seen
        ensures { Sees self tbf.now result }
    {
        Seen {
            waiting: count_of(TBF_BYTES, self.tbf),
            front: front(tbf, self.tbf),
            clear: is_clear(RBF_BYTES, self.rbf),
        }
    }

    // What a word came to; `step` adds what is driven next.
    pub(crate) fn done(self, came: Result<Outcome, Refusal>) -> Done
        ensures { result ≡ done self came }
    {
        Done { lent: self, came }
    }

    // A slot is taken: what it did to the scalars, and what it does to the buffers.
    fn acted_on(self, acted: Acted, rbf: &mut [u8; RBF_BYTES]) -> Done
        ensures { Acts self acted rbf.old rbf.new result }
    {
        let sent = tbf_after(acted.act, self.tbf);
        let stored = rbf_after(acted.act, rbf, self.rbf);
        let lent = Lent {
            core: acted.core,
            tbf: sent,
            rbf: stored,
        };
        lent.done(Ok(Outcome::Taken))
    }

    // "Level 1 while the unit drives 0".
    #[tactic(auto, unfolding(rules::specs::Step::clashes))]
    fn clash(self, bit: bool) -> bool
        ensures { Clashes self bit result }
    {
        bit & (self.drive() == DRIVE_LOW)
    }

    #[tactic(auto, unfolding(crate::specs::Both::slot_refusal))]
    fn check_slot(self, slot: Slot) -> Result<(), Refusal>
        ensures { SlotRefuses self slot result }
    {
        match slot {
            Slot::Level(bit) => {
                if self.clash(bit) {
                    return Err(Refusal::LevelUnheard);
                }
                Ok(())
            }
            Slot::Start | Slot::Idle => Ok(()),
        }
    }

    // What a slot does.
    fn slot_acted(self, slot: Slot, tbf: &[u8; TBF_BYTES]) -> Acted
        ensures { SlotActs self slot tbf.now result }
    {
        on_slot(self.core, Some(slot), self.seen(tbf))
    }

    fn slot(self, slot: Slot, tbf: &[u8; TBF_BYTES], rbf: &mut [u8; RBF_BYTES]) -> Done
        ensures { SlotsOn self slot tbf.now rbf.old rbf.new result }
    {
        if let Err(refusal) = self.check_slot(slot) {
            return self.done(Err(refusal));
        }
        self.acted_on(self.slot_acted(slot, tbf), rbf)
    }

    // The unit after a word, and what the word came to; where it is refused, the unit is as it was.
    fn word(self, word: u32, tbf: &mut [u8; TBF_BYTES], rbf: &mut [u8; RBF_BYTES]) -> Done
        ensures { Works self word tbf.old tbf.new rbf.old rbf.new result }
    {
        if word / 0x1000_0000 != KIND_SLOT {
            return self.told(word, tbf, rbf);
        }
        let Some(slot) = slot_of(word) else {
            return self.done(Err(Refusal::StrayBit));
        };
        self.slot(slot, tbf, rbf)
    }

    // The unit after a word, and what it is answered; its buffers are lent, and of these no place is written but where
    // a byte comes in. They are lent one by one, down to the functions that read or write one of them: so a signature
    // says which bytes a function can reach, as one struct of both would not.
    pub fn step(self, word: u32, tbf: &mut [u8; TBF_BYTES], rbf: &mut [u8; RBF_BYTES]) -> Answered
        ensures { Runs self word tbf.old tbf.new rbf.old rbf.new result }
    {
        if (word <= SLOT_HIGH) & plain(self.core.frame) {
            return self.plainly(word == SLOT_HIGH);
        }
        if (word <= SLOT_HIGH) & self.agrees(word) {
            return self.agreed(word == SLOT_HIGH);
        }
        // A refused word goes the same way on: with one of its own, a list run of slots takes more than twice as long.
        let after = self.word(word, tbf, rbf);
        Answered {
            lent: after.lent,
            answer: answer_to(after.came, after.lent.drive()),
        }
    }
}

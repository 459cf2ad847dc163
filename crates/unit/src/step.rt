// A unit by value: a reset one, and one word.
ghost use Rattle.std.specs.Prelude.{◌≡◌};
ghost use Rattle.unit.specs.Unit.{Circling, lent_of, reset_unit, state_of, unit_by, unit_in};
ghost use Rattle.rules.specs.Refusals.{Ruled};
ghost use Rattle.rules.specs.State.{reset};
ghost use Rattle.rules.specs.Step.{answer_of, step_of};
ghost use Rattle.rules.specs.declared.answer.Refusal.{Refusal};

use crate::buffers::{Buffer, Rbf, Tbf};
use lent::step::Lent;
use line::numbers::{RBF_BYTES, TBF_BYTES};
use registers::reset_core;
use rules::answer::Answer;
use rules::state::Core;

// A unit that holds its buffers.
#[derive(Clone, Copy)]
pub struct Unit {
    pub core: Core,
    pub tbf: Tbf,
    pub rbf: Rbf,
}

// What a step hands back. No Result: a unit is left either way.
#[derive(Clone, Copy)]
pub struct Stepped {
    pub unit: Unit,
    pub answer: Answer,
}

impl Unit {
    #[tactic(auto, unfolding(circles::specs::Circle::circle_of, circles::specs::Circle::items))]
    pub fn reset() -> Unit
        ensures result_value { state_of result ≡ reset }
        ensures whole { result ≡ reset_unit }
    {
        Unit {
            core: reset_core(),
            tbf: Buffer::empty(),
            rbf: Buffer::empty(),
        }
    }

    // All of it but the bytes of its buffers, which a step is lent.
    pub fn lent(self) -> Lent
        ensures { result ≡ lent_of self }
    {
        Lent {
            core: self.core,
            tbf: self.tbf.span,
            rbf: self.rbf.span,
        }
    }

    // Such a unit with the bytes that it was lent.
    pub fn from_lent(lent: Lent, tbf: [u8; TBF_BYTES], rbf: [u8; RBF_BYTES]) -> Unit
        ensures { result ≡ unit_in lent tbf rbf }
    {
        Unit {
            core: lent.core,
            tbf: Buffer {
                bytes: tbf,
                span: lent.tbf,
            },
            rbf: Buffer {
                bytes: rbf,
                span: lent.rbf,
            },
        }
    }

    // The unit after a word, and what it is answered.
    #[tactic(auto, unfolding(crate::specs::Unit::unit_by))]
    pub fn step(self, word: u32) -> Stepped
        ensures unit_value { state_of result.unit ≡ step_of (state_of self) word }
        ensures answer_value { result.answer ≡ answer_of (state_of self) word }
        ensures refusals { Ruled (state_of self) word (state_of result.unit) result.answer }
        ensures circles { Circling self word result.unit }
        ensures whole { result.unit ≡ unit_by self word }
        ensures unchanged { (refusal : Refusal) → result.answer ≡ Err refusal → result.unit ≡ self }
    {
        let mut tbf = self.tbf.bytes;
        let mut rbf = self.rbf.bytes;
        let after = self.lent().step(word, &mut tbf, &mut rbf);
        Stepped {
            unit: Unit::from_lent(after.lent, tbf, rbf),
            answer: after.answer,
        }
    }
}

// The calls of a host in C that keeps a unit: "A list may go over any number of list runs, each from the state that
// the last one left."
ghost use Rattle.std.specs.Prelude.{◌≡◌};
ghost use Rattle.keeping.specs.Calls.{Ran, Reset};
ghost use Rattle.lasting.specs.Refused.{error_number, number_of};
ghost use Rattle.lasting.specs.declared.calls.CallError.TheVariants.{Run};

use crate::layout::STATE_BYTES;
use crate::whole::{put_unit, unit_from};
use answers::{ListError, check_bytes};
use list_run::bytes::run_bytes;
use std::error::Error;
use std::fmt;
use unit::step::Unit;

// The bytes given for a state are not as many as keep one. No number of document 01.
const REFUSED_STATE_SIZE: u32 = 100;

// Why a call is refused, and nothing run or written.
#[derive(Clone, Copy, Debug, PartialEq, Eq)]
pub enum CallError {
    Run(ListError),
    StateSize,
}

impl From<ListError> for CallError {
    ghost from_gives = { λ error call. call ≡ Run error };

    fn from(error: ListError) -> CallError {
        CallError::Run(error)
    }
}

impl CallError {
    // The number that a host is given.
    pub fn number(self) -> u32
        ensures { result ≡ error_number self }
    {
        match self {
            CallError::Run(error) => error.number(),
            CallError::StateSize => REFUSED_STATE_SIZE,
        }
    }
}

impl fmt::Display for CallError {
    fn fmt<W: fmt::Write>(&self, f: &mut fmt::Formatter<W>) -> fmt::Result {
        match self {
            CallError::Run(error) => error.fmt(f),
            CallError::StateSize => f.write_str("the bytes are not as many as keep a state"),
        }
    }
}

impl Error for CallError {}

// A reset unit in `state`. Refused where `state` has not the size of a state; then nothing is written.
#[tactic(auto, unfolding(keeping::specs::Calls::size_refusal, keeping::specs::Calls::reset_bytes, keeping::specs::Calls::reset_state))]
pub fn reset(state: &mut [u8]) -> Result<(), CallError>
    ensures { Reset state.old (number_of result) state.new }
{
    match state.as_mut_array::<STATE_BYTES>() {
        Some(state) => {
            put_unit(state, Unit::reset());
            Ok(())
        }
        None => Err(CallError::StateSize),
    }
}

// The words run from the unit that `state` keeps, which then keeps the unit that is left. The answer to the word at
// byte at stands at byte at of `answers`; bytes past the last answer keep their contents. Refused as a run over bytes
// is, or else where `state` has not the size of a state; then nothing is run and nothing written.
#[tactic(auto, unfolding(keeping::specs::Calls::run_refusal, keeping::specs::Calls::run_answers, keeping::specs::Calls::run_bytes, keeping::specs::Calls::run_state, keeping::specs::Calls::size_refusal))]
pub fn run(state: &mut [u8], words: &[u8], answers: &mut [u8]) -> Result<(), CallError>
    ensures { Ran state.old words.now answers.old (number_of result) state.new
        answers.new }
{
    // "The lowest number wins": the lists come before the size.
    check_bytes(words.len(), answers.len())?;
    let Some(state) = state.as_mut_array::<STATE_BYTES>() else {
        return Err(CallError::StateSize);
    };
    let left = run_bytes(unit_from(state), words, answers)?;
    put_unit(state, left);
    Ok(())
}

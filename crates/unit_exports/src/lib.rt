// What a host in C calls of a unit, and nothing else: each function hands on to a library below, whose contract it
// keeps. No function has a `requires`, and nothing is assumed.
#![tactic(auto)]

ghost use Rattle.std.specs.Prelude.{◌≡◌};
ghost use Rattle.lasting.specs.Refused.{number_of};
ghost use Rattle.lists.specs.Bytes.{CalledBytes};
ghost use Rattle.rules.specs.State.{reset};
ghost use Rattle.keeping.specs.Calls.{Ran, Reset};

use lasting::calls::CallError;
use list_run::bytes::run_bytes;
use unit::step::Unit;

// What C is told: 0, or the number of the refusal. Other crates say so of their own errors: one function for all would
// need a trait with the number and its law, and an `impl` for each error, which is no plainer than this `match`.
fn number(done: Result<(), CallError>) -> u32
    ensures { result ≡ number_of done }
{
    match done {
        Ok(()) => 0,
        Err(refusal) => refusal.number(),
    }
}

// "The same run from a reset unit is exported to the bench host, written in C, over byte slices, each word
// little-endian; it returns 0 or a refusal."
#[unsafe(no_mangle)]
pub extern "C" fn iebus_run(words: &[u8], answers: &mut [u8]) -> u32
    ensures { CalledBytes reset words.now answers.old result answers.new }
{
    match run_bytes(Unit::reset(), words, answers) {
        Ok(_) => 0,
        Err(error) => error.number(),
    }
}

// A reset unit in `state`: 0, or 100 where `state` has not the size of a state; then nothing is written.
#[unsafe(no_mangle)]
pub extern "C" fn iebus_unit_reset(state: &mut [u8]) -> u32
    ensures { Reset state.old result state.new }
{
    number(lasting::calls::reset(state))
}

// The words run from the unit that `state` keeps, which then keeps the unit that is left: 0, 11, 12 or 100.
#[unsafe(no_mangle)]
pub extern "C" fn iebus_unit_run(state: &mut [u8], words: &[u8], answers: &mut [u8]) -> u32
    ensures { Ran state.old words.now answers.old result state.new
        answers.new }
{
    number(lasting::calls::run(state, words, answers))
}

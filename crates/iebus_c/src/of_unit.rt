// What `unit_exports` has.
ghost use Rattle.lists.specs.Bytes.{CalledBytes};
ghost use Rattle.rules.specs.State.{reset};
ghost use Rattle.keeping.specs.Calls.{Ran, Reset};

#[unsafe(no_mangle)]
pub extern "C" fn iebus_run(words: &[u8], answers: &mut [u8]) -> u32
    ensures { CalledBytes reset words.now answers.old result answers.new }
{
    unit_exports::iebus_run(words, answers)
}

#[unsafe(no_mangle)]
pub extern "C" fn iebus_unit_reset(state: &mut [u8]) -> u32
    ensures { Reset state.old result state.new }
{
    unit_exports::iebus_unit_reset(state)
}

#[unsafe(no_mangle)]
pub extern "C" fn iebus_unit_run(state: &mut [u8], words: &[u8], answers: &mut [u8]) -> u32
    ensures { Ran state.old words.now answers.old result state.new
        answers.new }
{
    unit_exports::iebus_unit_run(state, words, answers)
}

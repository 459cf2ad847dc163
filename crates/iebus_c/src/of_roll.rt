// What `roll_keeper` has.
ghost use Rattle.rolls.specs.Kept.{Begins, Joins, Leaves, Shows, asked};
ghost use Rattle.rolls.specs.Relied.{Relied};

#[unsafe(no_mangle)]
pub extern "C" fn iebus_roll_begin(roll: &mut [u8]) -> u32
    ensures whole { Begins roll.old result roll.new }
    ensures relied { Relied }
{
    roll_keeper::iebus_roll_begin(roll)
}

#[unsafe(no_mangle)]
pub extern "C" fn iebus_roll_join(roll: &mut [u8], bit: u32, address: u32) -> u32
    ensures whole { Joins (asked bit address) roll.old result roll.new }
    ensures relied { Relied }
{
    roll_keeper::iebus_roll_join(roll, bit, address)
}

#[unsafe(no_mangle)]
pub extern "C" fn iebus_roll_leave(roll: &mut [u8], bit: u32, address: u32) -> u32
    ensures whole { Leaves (asked bit address) roll.old result roll.new }
    ensures relied { Relied }
{
    roll_keeper::iebus_roll_leave(roll, bit, address)
}

#[unsafe(no_mangle)]
pub extern "C" fn iebus_roll_shown(roll: &[u8], shown: &mut u32) -> u32
    ensures whole { Shows roll.now shown.old result shown.new }
    ensures relied { Relied }
{
    roll_keeper::iebus_roll_shown(roll, shown)
}

// What `line_exports` has.
ghost use Rattle.contenders.specs.Contest.{ContestedWord, NamedRightly, verdict_in};
ghost use Rattle.loads.specs.Load.{CalledLoad};
ghost use Rattle.loads.specs.Relied.{Relied as ReliedLoads};
ghost use Rattle.logs.specs.Log.{CalledLog, long_in};
ghost use Rattle.logs.specs.Relied.{Relied};
ghost use Rattle.pulses.specs.Conversion.{CalledSlots, setting_in};
ghost use Rattle.pulses.specs.Relied.{Relied as ReliedPulses};

use contenders::Contender;

#[unsafe(no_mangle)]
pub extern "C" fn iebus_contest(records: &[Contender], lost: &mut [u32]) -> u32
    ensures whole { ContestedWord records.now lost.old result lost.new }
    ensures named { NamedRightly records.now (verdict_in result) }
{
    line_exports::iebus_contest(records, lost)
}

#[unsafe(no_mangle)]
pub extern "C" fn iebus_read_log(
    mode: u32,
    slots: &[u32],
    records: &mut [u32],
    frames: &mut u64,
) -> u32
    ensures whole { CalledLog mode slots.now records.old frames.old result
        records.new frames.new }
    ensures relied { Relied (long_in mode) }
{
    line_exports::iebus_read_log(mode, slots, records, frames)
}

#[unsafe(no_mangle)]
pub extern "C" fn iebus_slots(
    zero: u32,
    one: u32,
    start: u32,
    pulses: &[u32],
    slots: &mut [u32],
) -> u32
    ensures whole { CalledSlots (setting_in zero one start) pulses.now slots.old result
        slots.new }
    ensures relied { ReliedPulses (setting_in zero one start) }
{
    line_exports::iebus_slots(zero, one, start, pulses, slots)
}

#[unsafe(no_mangle)]
pub extern "C" fn iebus_load(
    w: u32,
    slots: &[u32],
    figures: &mut [u32],
    largest: &mut u32,
    place: &mut u64,
) -> u32
    ensures whole { CalledLoad w slots.now figures.old largest.old
        place.old result figures.new largest.new place.new }
    ensures relied { ReliedLoads w }
{
    line_exports::iebus_load(w, slots, figures, largest, place)
}

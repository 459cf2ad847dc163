// What a host in C calls of the line as a whole, for which it needs no unit: each function hands on to a library below,
// whose contract it keeps. No function has a `requires`, and nothing is assumed.
#![tactic(auto)]

ghost use Rattle.std.specs.Prelude.{◌≡◌};
ghost use Rattle.contenders.specs.Contest.{ContestedWord, NamedRightly, contenders_of, verdict_in};
ghost use Rattle.loads.specs.Load.{CalledLoad};
ghost use Rattle.loads.specs.Relied.{Relied as ReliedLoads};
ghost use Rattle.logs.specs.Log.{CalledLog, long_in};
ghost use Rattle.logs.specs.Relied.{Relied};
ghost use Rattle.pulses.specs.Conversion.{CalledSlots, setting_in};
ghost use Rattle.pulses.specs.Relied.{Relied as ReliedPulses};

use capture::slots_of_pulses;
use contenders::{Contender, Contenders, Verdict};
use meter::load;
use pulses::{Range, Setting};
use reader::read_log;
use records::gathered;

// A verdict as one number: the refusal's number in the upper half, the place in the lower.
const WORD_HALF: u32 = 65536;

// The core's contest with its verdict as one number.
fn contest_word(all: Contenders, lost: &mut [u32]) -> u32
    ensures whole { ContestedWord (contenders_of all) lost.old result lost.new }
    ensures named { NamedRightly (contenders_of all) (verdict_in result) }
{
    let verdict = Verdict::of(contest::contest(all, lost));
    u32::from(verdict.number) * WORD_HALF + verdict.place as u32
}

// The winner's place, or the refusal's number times 65536 and the place that it names.
#[unsafe(no_mangle)]
pub extern "C" fn iebus_contest(records: &[Contender], lost: &mut [u32]) -> u32
    ensures whole { ContestedWord records.now lost.old result lost.new }
    ensures named { NamedRightly records.now (verdict_in result) }
{
    contest_word(gathered(records), lost)
}

// A record for each frame of a log, one behind the other: 0 and the number of frames, or 12 or 16.
#[unsafe(no_mangle)]
#[tactic(auto, unfolding(logs::specs::Log::frames_after, logs::specs::Log::number_of))]
pub extern "C" fn iebus_read_log(
    mode: u32,
    slots: &[u32],
    records: &mut [u32],
    frames: &mut u64,
) -> u32
    ensures whole { CalledLog mode slots.now records.old frames.old result
        records.new frames.new }
    ensures relied { Relied (long_in mode) }
{
    match read_log(mode != 0, slots, records) {
        Ok(count) => {
            *frames = count as u64;
            0
        }
        Err(error) => error.number(),
    }
}

fn setting(zero: u32, one: u32, start: u32) -> Setting
    ensures { result ≡ setting_in zero one start }
{
    Setting {
        zero: Range::in_word(zero),
        one: Range::in_word(one),
        start: Range::in_word(start),
    }
}

// A slot word for each measured pulse: 0, or 12, 19 or 20.
#[unsafe(no_mangle)]
pub extern "C" fn iebus_slots(
    zero: u32,
    one: u32,
    start: u32,
    pulses: &[u32],
    slots: &mut [u32],
) -> u32
    ensures whole { CalledSlots (setting_in zero one start) pulses.now slots.old result
        slots.new }
    ensures relied { ReliedPulses (setting_in zero one start) }
{
    if let Err(error) = slots_of_pulses(setting(zero, one, start), pulses, slots) {
        return error.number();
    }
    0
}

// The figure after every slot of a log, and the largest with the first place where it was reached: 0, or 12, 25 or 16.
#[unsafe(no_mangle)]
#[tactic(auto, unfolding(loads::specs::Load::largest_after, loads::specs::Load::number_of, loads::specs::Load::place_after))]
pub extern "C" fn iebus_load(
    w: u32,
    slots: &[u32],
    figures: &mut [u32],
    largest: &mut u32,
    place: &mut u64,
) -> u32
    ensures whole { CalledLoad w slots.now figures.old largest.old
        place.old result figures.new largest.new place.new }
    ensures relied { ReliedLoads w }
{
    match load(w, slots, figures) {
        Ok(Some(peak)) => {
            *largest = peak.largest;
            *place = peak.place as u64;
            0
        }
        Ok(None) => {
            *largest = 0;
            0
        }
        Err(refused) => refused.number(),
    }
}

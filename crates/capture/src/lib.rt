// The conversion of measured pulses into slot words: a pulse whose whole interval lies in the range of a symbol becomes
// that symbol, every other becomes idle. The public function has no `requires`, and nothing is assumed.
#![tactic(auto)]

ghost use Rattle.std.specs.Prelude.{◌≡◌, ◌++◌, ◌≤◌, OnOk, drop, length};
ghost use Rattle.pulses.specs.Conversion.{Converted, end_of};
ghost use Rattle.pulses.specs.Ranges.{bad_ranges, meet, turned};
ghost use Rattle.pulses.specs.Relied.{Relied};
ghost use Rattle.pulses.specs.Symbols.{bad_in, bad_pulse, slots_of, symbol_of, within};

use line::numbers::{SLOT_HIGH, SLOT_IDLE, SLOT_LOW, SLOT_START};
use pulses::{HALF, PulsesError, Range, Setting};

fn turned(r: Range) -> bool
    ensures { result ≡ turned r }
{
    r.most < r.least
}

fn meet(a: Range, b: Range) -> bool
    ensures { result ≡ meet a b }
{
    (a.least <= b.most) & (b.least <= a.most)
}

#[tactic(auto, unfolding(pulses::specs::Ranges::bad_ranges))]
fn bad_ranges(s: Setting) -> bool
    ensures { result ≡ bad_ranges s }
{
    turned(s.zero)
        | turned(s.one)
        | turned(s.start)
        | meet(s.zero, s.one)
        | meet(s.zero, s.start)
        | meet(s.one, s.start)
}

// A pulse's ends stay as wide as its word: by `Range::in_word`, of 16 bits each, a list took a third more instructions.
fn bad_pulse(pulse: u32) -> bool
    ensures { result ≡ bad_pulse pulse }
{
    pulse / HALF < pulse % HALF
}

// Whether some pulse has its least above its most. To look at every pulse and test once is cheaper than a test of each.
fn bad_pulses(pulses: &[u32]) -> bool
    ensures { result ≡ bad_in pulses.now }
{
    let mut bad = false;
    for pulse in pulses {
        bad |= bad_pulse(*pulse);
    }
    bad
}

fn within(r: Range, least: u32, most: u32) -> bool
    ensures { result ≡ within r least most }
{
    (u32::from(r.least) <= least) & (most <= u32::from(r.most))
}

#[tactic(auto, unfolding(pulses::specs::Symbols::symbol_of))]
fn symbol(s: Setting, least: u32, most: u32) -> u32
    ensures { result ≡ symbol_of s least most }
{
    if within(s.zero, least, most) {
        SLOT_LOW
    } else if within(s.one, least, most) {
        SLOT_HIGH
    } else if within(s.start, least, most) {
        SLOT_START
    } else {
        SLOT_IDLE
    }
}

fn put_slots(s: Setting, pulses: &[u32], slots: &mut [u32])
    requires { length pulses.now ≤ length slots.old }
    ensures { slots.new ≡ slots_of s pulses.now
        ++ drop (length pulses.now) slots.old }
{
    // no `slots.iter_mut().zip(pulses)`: tried, and nothing is known then of the slots that it wrote
    for (i, pulse) in pulses.iter().enumerate() {
        slots[i] = symbol(s, pulse % HALF, pulse / HALF);
    }
}

// What is refused of a setting and of pulses, where there is room for so many slots.
#[tactic(auto, unfolding(pulses::specs::Conversion::end_of))]
fn checked(s: Setting, pulses: &[u32], room: usize) -> Result<(), PulsesError>
    ensures ends { result ≡ end_of s room pulses.now }
    ensures fits { OnOk result (length pulses.now ≤ room) }
{
    if room < pulses.len() {
        return Err(PulsesError::ShortList);
    }
    if bad_ranges(s) {
        return Err(PulsesError::BadRanges);
    }
    if bad_pulses(pulses) {
        return Err(PulsesError::BadPulse);
    }
    Ok(())
}

// A slot word for each pulse, whose least and most are the lower and the upper half of its word. The slots go to the
// front of the list; places past them keep their contents, and so does the whole list where the call is refused.
#[tactic(auto, using(pulses::proofs::Relied::relied, crate::proofs::Ends::refused, crate::proofs::Ends::given))]
pub fn slots_of_pulses(
    setting: Setting,
    pulses: &[u32],
    slots: &mut [u32],
) -> Result<(), PulsesError>
    ensures whole { Converted setting pulses.now slots.old result slots.new }
    ensures relied { Relied setting }
{
    checked(setting, pulses, slots.len())?;
    put_slots(setting, pulses, slots);
    Ok(())
}

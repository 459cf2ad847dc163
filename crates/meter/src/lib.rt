// The figures of a log: after every slot, how many of the latest are not idle. The work for each slot is the same
// whatever the window is: the slot that comes is counted, and the one that leaves the window is counted no more. No
// public function has a `requires`, and nothing is assumed.
#![tactic(auto)]

ghost use Rattle.std.specs.Prelude.{◌≡◌, ◌++◌, ◌<◌, ◌≤◌, IfErr, OnOk, false, drop, length};
ghost use Rattle.line.specs.Numbers.{most_window};
ghost use Rattle.logs.specs.Frames.{stray_in};
ghost use Rattle.loads.specs.Figures.{bad_window, busy, busy_of, figures_of, largest_of, place_of};
ghost use Rattle.loads.specs.Load.{Loads, end_of};
ghost use Rattle.loads.specs.Relied.{Relied};
ghost use Rattle.meter.specs.Counting.{higher_of, leaving_at};

use line::numbers::{MOST_WINDOW, SLOT_IDLE};
use loads::{LoadError, Peak};
use logs::strays;

fn bad_window(w: u32) -> bool
    ensures { result ≡ bad_window w }
{
    !(1..=MOST_WINDOW).contains(&w)
}

fn busy(slot: u32) -> u32
    ensures { result ≡ busy slot }
{
    u32::from(slot != SLOT_IDLE)
}

// How many of some slots are not idle.
pub fn busy_of(slots: &[u32]) -> usize
    ensures { result ≡ busy_of slots.now }
{
    slots.iter().map(|slot| busy(*slot) as usize).sum()
}

// What leaves the window with the slot at a place: the slot that came w before it.
fn leaving(w: usize, slots: &[u32], place: usize) -> u32
    requires { place < length slots.now }
    ensures { result ≡ leaving_at w slots.now place }
{
    if place < w { 0 } else { busy(slots[place - w]) }
}

// One figure more.
#[tactic(auto, unfolding(crate::specs::Counting::higher_of))]
fn higher(peak: Peak, figure: u32, place: usize) -> Peak
    ensures { result ≡ higher_of peak figure place }
{
    if peak.largest < figure {
        Peak {
            largest: figure,
            place,
        }
    } else {
        peak
    }
}

fn put_figures(w: usize, slots: &[u32], figures: &mut [u32]) -> Peak
    requires { (0 < w) × (w ≤ most_window) × (length slots.now ≤ length figures.old) }
    ensures figures_after { figures.new ≡ figures_of w slots.now
        ++ drop (length slots.now) figures.old }
    ensures largest_value { result ≡ record {
      largest = largest_of (figures_of w slots.now);
      place = place_of (figures_of w slots.now);
    } }
{
    let mut peak = Peak {
        largest: 0,
        place: 0,
    };
    let mut count: u32 = 0;
    // no `figures.iter_mut().zip(slots)`: the place is needed all the same, and nothing is known then of what it wrote
    for (i, slot) in slots.iter().enumerate() {
        count = count + busy(*slot) - leaving(w, slots, i);
        figures[i] = count;
        peak = higher(peak, count, i);
    }
    peak
}

// What is refused of a window and a log, where there is room for so many figures.
#[tactic(auto, unfolding(loads::specs::Load::end_of))]
fn checked(w: u32, slots: &[u32], room: usize) -> Result<(), LoadError>
    ensures refused { IfErr result (λ e. Err e ≡ end_of w room slots.now) }
    ensures fits { OnOk result (length slots.now ≤ room) }
    ensures window { OnOk result (bad_window w ≡ false) }
    ensures words { OnOk result (stray_in slots.now ≡ false) }
{
    if room < slots.len() {
        return Err(LoadError::ShortList);
    }
    if bad_window(w) {
        return Err(LoadError::BadWindow);
    }
    if strays(slots) {
        return Err(LoadError::NoSlot);
    }
    Ok(())
}

// The figure after every slot goes to the front of the list. Places past the last figure keep their contents, and so
// does the whole list where the call is refused.
#[tactic(auto, using(crate::proofs::Ends::refused))]
pub fn load(w: u32, slots: &[u32], figures: &mut [u32]) -> Result<Option<Peak>, LoadError>
    ensures whole { Loads w slots.now figures.old result figures.new }
    ensures relied { Relied w }
{
    checked(w, slots, figures.len())?;
    if slots.is_empty() {
        return Ok(None);
    }
    Ok(Some(put_figures(w as usize, slots, figures)))
}

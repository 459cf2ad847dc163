// What a slot does to the scalars of a unit and, as a value, to its buffers. The public function has no `requires`, and
// nothing is assumed.
#![tactic(auto)]

ghost use Rattle.std.specs.Prelude.{◌≡◌};
ghost use Rattle.place.specs.Frame.{begun_of};
ghost use Rattle.rules.specs.Slots.{on_idle, on_level, on_slot, on_start};

use crate::endings::cut;
use crate::events::on_event;
use crate::state::acting;
use line::numbers::attempts;
use line::slot::Slot;
use moves::none;
use output::{takes_part, view};
use place::{Field, Frame, Place};
use rules::state::{Act, Acted, Core, Seen};

mod endings;
mod events;
mod state;

// "A start slot always begins a frame": whether the unit takes part as a master, and the mode then.
#[tactic(auto, unfolding(place::specs::Frame::begun_of, place::specs::Frame::limit_of))]
fn begun(leads: bool, long: bool) -> Frame
    ensures { result ≡ begun_of leads long }
{
    let mut frame = none();
    frame.place = Place::In(Field::Broadcast, 0);
    frame.leads = leads;
    frame.limit = attempts(long);
    frame
}

// "A start slot always begins a frame", from the state that the old frame's end left.
#[tactic(auto, unfolding(rules::specs::Slots::on_start, rules::specs::Slots::begun))]
fn on_start(core: Core, clear: bool) -> Acted
    ensures { result ≡ on_start core clear }
{
    let mut after = cut(core);
    let regs = after.core.regs;
    after.core.frame = begun(takes_part(regs, clear), regs.long);
    after.core.idle = false;
    after
}

#[tactic(auto, unfolding(rules::specs::Slots::on_idle))]
fn on_idle(core: Core) -> Acted
    ensures { result ≡ on_idle core }
{
    let mut after = cut(core);
    after.core.idle = true;
    after
}

#[tactic(auto, unfolding(rules::specs::Slots::on_level))]
fn on_level(mut core: Core, bit: bool, seen: Seen) -> Acted
    ensures { result ≡ on_level core bit seen }
{
    let moved = frame::level(core.frame, bit, view(core.regs, seen.clear));
    core.idle = false;
    on_event(moved.event, core, moved.frame, seen)
}

// What a slot does; where a word with a stray bit, which is refused, says none, nothing happens.
pub fn on_slot(core: Core, slot: Option<Slot>, seen: Seen) -> Acted
    ensures { result ≡ on_slot core slot seen }
{
    match slot {
        Some(Slot::Level(bit)) => on_level(core, bit, seen),
        Some(Slot::Start) => on_start(core, seen.clear),
        Some(Slot::Idle) => on_idle(core),
        None => acting(core, Act::Nothing),
    }
}

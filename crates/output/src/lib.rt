// What a unit puts on the line next, and what a frame sees of the unit. No public function has a `requires`, and
// nothing is assumed.
#![tactic(auto)]

ghost use Rattle.std.specs.Prelude.{◌≡◌};
ghost use Rattle.rules.specs.Slots.{core_drive};
ghost use Rattle.rules.specs.State.{takes_part, view_of};

use driving::drive;
use line::numbers::{DRIVE_RELEASED, DRIVE_START};
use moves::writes;
use place::{Place, View};
use rules::state::{Core, Registers};

// What a frame sees of the unit.
pub fn view(regs: Registers, clear: bool) -> View
    ensures { result ≡ view_of regs clear }
{
    View {
        own: regs.own,
        bit: regs.bit,
        slave: regs.slave,
        control: regs.control,
        strq: regs.strq,
        ready: regs.slre & clear,
        locked: regs.locked,
        holder: regs.holder,
    }
}

// A request stands and does not hold back: "a read request holds back while RBF is not empty".
#[tactic(auto, unfolding(rules::specs::State::takes_part))]
pub fn takes_part(regs: Registers, clear: bool) -> bool
    ensures { result ≡ takes_part regs clear }
{
    regs.marq & (writes(regs.control) | clear)
}

// What the unit drives in the next slot: "0, 1 (released) or 2 (start)". "With MARQ set and idle as the latest slot,
// the unit drives start". A number, as the answer has it.
#[tactic(auto, unfolding(rules::specs::Slots::core_drive))]
pub fn core_drive(core: Core, clear: bool) -> u8
    ensures { result ≡ core_drive core clear }
{
    match core.frame.place {
        Place::Waiting => {
            if core.idle & takes_part(core.regs, clear) {
                return DRIVE_START;
            }
            DRIVE_RELEASED
        }
        Place::In(_, _) => drive(core.frame, view(core.regs, clear)) as u8,
    }
}

// What is worked out from the registers of a unit.
ghost use Rattle.std.specs.Prelude.{◌≡◌};
ghost use Rattle.rules.specs.Endings.{acted};
ghost use Rattle.rules.specs.State.{own_byte, status_byte};

use rules::state::{Act, Acted, Core, Registers};

// "The status byte has bit 0 STRQ, bit 1 .., bit 2 locked, bit 4 sending enabled, bits 7-6 = 10"; ticket 2: "bit 1 is 0
// when SLRE is set and RBF is empty, and otherwise 1".
#[tactic(auto, unfolding(rules::specs::State::status_byte))]
fn status_byte(regs: Registers, clear: bool) -> u8
    ensures { result ≡ status_byte regs clear }
{
    let closed = !(regs.slre & clear);
    128 + (regs.enabled as u8) * 16 + (regs.locked as u8) * 4 + (closed as u8) * 2 + regs.strq as u8
}

// The byte that a slave sends of itself: the holder's low 8 bits with 4H, its high 4 with 5H, or the status.
#[tactic(auto, unfolding(rules::specs::State::own_byte))]
pub(crate) fn own_byte(regs: Registers, control: u8, clear: bool) -> u8
    ensures { result ≡ own_byte regs control clear }
{
    if control == 4 {
        return (regs.holder % 256) as u8;
    }
    if control == 5 {
        if regs.locked {
            return (regs.holder / 256 % 16) as u8;
        }
        return 0;
    }
    status_byte(regs, clear)
}

// With something to be done to the buffers.
pub(crate) fn acting(core: Core, act: Act) -> Acted
    ensures { result ≡ acted act core }
{
    Acted { core, act }
}

// A whole unit as bytes and back.
ghost use Rattle.std.specs.Prelude.{◌≡◌};
ghost use Rattle.unit.specs.Unit.{state_of};
ghost use Rattle.keeping.specs.Calls.{Keeps};
ghost use Rattle.keeping.specs.Decode.{decode};

use crate::buffers::{buffer_from, put_buffer};
use crate::layout::{FRAME_END, IDLE_PLACE, REGISTERS_END, STATE_BYTES, TBF_END};
use crate::scalars::{flag, frame_bytes, frame_from, registers_bytes, registers_from};
use rules::state::Core;
use unit::step::Unit;

// Each part is as long as its array, so that nothing is unwrapped in vain.
#[tactic(auto, unfolding(keeping::specs::Decode::decode))]
fn core_from(state: &[u8; STATE_BYTES]) -> Core
    ensures { result ≡ (decode state.now).core }
{
    Core {
        regs: registers_from(state[0..REGISTERS_END].as_array().unwrap()),
        frame: frame_from(state[REGISTERS_END..FRAME_END].as_array().unwrap()),
        idle: flag(state[IDLE_PLACE]),
    }
}

// The unit that bytes keep.
#[tactic(auto, unfolding(keeping::specs::Decode::decode))]
pub(crate) fn unit_from(state: &[u8; STATE_BYTES]) -> Unit
    ensures { state_of result ≡ decode state.now }
{
    Unit {
        core: core_from(state),
        tbf: buffer_from(&state[FRAME_END..TBF_END]),
        rbf: buffer_from(&state[TBF_END..STATE_BYTES]),
    }
}

// The bytes that keep a unit.
pub(crate) fn put_unit(state: &mut [u8; STATE_BYTES], unit: Unit)
    ensures { Keeps (state_of unit) state.new }
{
    let regs = registers_bytes(unit.core.regs);
    let frame = frame_bytes(unit.core.frame, unit.core.idle);
    state[0..REGISTERS_END].copy_from_slice(&regs);
    state[REGISTERS_END..FRAME_END].copy_from_slice(&frame);
    put_buffer(&mut state[FRAME_END..TBF_END], unit.tbf);
    put_buffer(&mut state[TBF_END..STATE_BYTES], unit.rbf);
}

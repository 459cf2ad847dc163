// How a unit's part in a frame ends: return codes, flags, TBF and the lock.
ghost use Rattle.std.specs.Prelude.{◌≡◌, ◌≤◌};
ghost use Rattle.rules.specs.Endings.{cut_of, data_ended, draws, end_code, ended_of, frees, left_of, length_ended};
ghost use Rattle.rules.specs.Endings.{lock_after, part_ended, reception_code, reception_ended, request_ended};
ghost use Rattle.rules.specs.Endings.{sending_ended, slave_ended, ties};
ghost use Rattle.rules.specs.Set.{core·regs};

use crate::state::acting;
use line::numbers::{
    CODE_ABORTED, CODE_BROADCAST_RECEIVING, CODE_NORMAL, CODE_RECEIVING, CODE_SENDING,
};
use moves::{done, writes};
use place::{Field, Frame, Place};
use rules::state::{Act, Acted, Core};

// "Codes, in the order started, data wanted or full, normal, aborted": the code of an end, from that of the start.
#[tactic(auto, unfolding(rules::specs::Endings::end_code))]
fn end_code(started: u8, whole: bool) -> u8
    requires { started ≤ 8 }
    ensures { result ≡ end_code started whole }
{
    started + if whole { CODE_NORMAL } else { CODE_ABORTED }
}

// "Receptions at length accepted": the code with which one starts.
#[tactic(auto, unfolding(rules::specs::Endings::reception_code))]
pub(crate) fn reception_code(frame: Frame) -> u8
    ensures { (result ≡ reception_code frame) × (result ≤ 8) }
{
    if !frame.leads & frame.broadcast {
        return CODE_BROADCAST_RECEIVING;
    }
    CODE_RECEIVING
}

// What is sent comes from TBF: a master's, and a slave's with 3H or 7H.
#[tactic(auto, unfolding(rules::specs::Endings::draws))]
pub(crate) fn draws_bytes(frame: Frame) -> bool
    ensures { result ≡ draws frame }
{
    frame.sends & (frame.leads | (frame.control == 3) | (frame.control == 7))
}

// 3H, AH and BH lock and unlock; "broadcasts do neither".
#[tactic(auto, unfolding(rules::specs::Endings::ties))]
fn ties_lock(frame: Frame) -> bool
    ensures { result ≡ ties frame }
{
    !frame.broadcast & ((frame.control == 3) | (frame.control == 10) | (frame.control == 11))
}

// "6H unlocks when its byte is ACKed."
#[tactic(auto, unfolding(rules::specs::Endings::frees))]
fn frees_lock(frame: Frame, whole: bool) -> bool
    ensures { result ≡ frees frame whole }
{
    !frame.broadcast & (frame.control == 6) & whole
}

// "Once 3H, AH or BH has its length ACKed, the frame's end before all bytes are ACKed locks to its master; all bytes
// ACKed unlocks. 6H unlocks when its byte is ACKed."
#[tactic(auto, unfolding(rules::specs::Endings::lock_after))]
fn lock_after(mut core: Core, whole: bool) -> Core
    ensures { result ≡ core·regs (lock_after core.frame whole core.regs) core }
{
    let frame = core.frame;
    if ties_lock(frame) {
        if whole {
            core.regs.locked = false;
            core.regs.holder = 0;
            return core;
        }
        core.regs.locked = true;
        core.regs.holder = frame.master;
        return core;
    }
    if frees_lock(frame, whole) {
        core.regs.locked = false;
        core.regs.holder = 0;
        return core;
    }
    core
}

// A master's request has ended: "normal or aborted clears MARQ ..; the end of a sending request empties TBF".
#[tactic(auto, unfolding(rules::specs::Endings::request_ended))]
pub(crate) fn request_ended(mut core: Core, whole: bool) -> Acted
    ensures { result ≡ request_ended core whole }
{
    core.regs.marq = false;
    if writes(core.regs.control) {
        core.regs.marc = end_code(CODE_SENDING, whole);
        return acting(core, Act::Empty);
    }
    core.regs.marc = end_code(CODE_RECEIVING, whole);
    acting(core, Act::Nothing)
}

// A slave's sending from TBF has ended: ".. STRQ ..".
#[tactic(auto, unfolding(rules::specs::Endings::sending_ended))]
fn sending_ended(mut core: Core, whole: bool) -> Acted
    ensures { result ≡ sending_ended core whole }
{
    core.regs.slrc = end_code(CODE_SENDING, whole);
    core.regs.strq = false;
    acting(core, Act::Empty)
}

// A slave's reception has ended: ".. or SLRE".
#[tactic(auto, unfolding(rules::specs::Endings::reception_ended))]
fn reception_ended(mut core: Core, whole: bool) -> Acted
    ensures { result ≡ reception_ended core whole }
{
    core.regs.slrc = end_code(reception_code(core.frame), whole);
    core.regs.slre = false;
    acting(core, Act::Nothing)
}

// A slave's part in the data has ended.
#[tactic(auto, unfolding(rules::specs::Endings::part_ended))]
fn part_ended(core: Core, whole: bool) -> Acted
    ensures { result ≡ part_ended core whole }
{
    let frame = core.frame;
    if draws_bytes(frame) {
        return sending_ended(core, whole);
    }
    if frame.sends {
        return acting(core, Act::Nothing);
    }
    reception_ended(core, whole)
}

#[tactic(auto, unfolding(rules::specs::Endings::data_ended))]
fn data_ended(core: Core, whole: bool) -> Acted
    ensures { result ≡ data_ended core whole }
{
    part_ended(lock_after(core, whole), whole)
}

// A slave's part in the length has ended: only a sending has begun.
#[tactic(auto, unfolding(rules::specs::Endings::length_ended))]
fn length_ended(core: Core) -> Acted
    ensures { result ≡ length_ended core }
{
    if draws_bytes(core.frame) {
        return sending_ended(core, false);
    }
    acting(core, Act::Nothing)
}

// A slave's part has ended in a field. Before the length nothing has begun.
fn slave_ended(place: Place, core: Core, whole: bool) -> Acted
    ensures { result ≡ slave_ended place core whole }
{
    match place {
        Place::Waiting => acting(core, Act::Nothing),
        Place::In(field, _) => match field {
            Field::Broadcast | Field::Master | Field::Slave | Field::Control => {
                acting(core, Act::Nothing)
            }
            Field::Length => length_ended(core),
            Field::Data => data_ended(core, whole),
        },
    }
}

// "Ended before all bytes are ACKed, it aborts the request of a master in it that has not lost, .. and any sending or
// reception begun." The frame is as it was before it ended.
#[tactic(auto, unfolding(rules::specs::Endings::ended_of))]
pub(crate) fn ended(core: Core, whole: bool) -> Acted
    ensures { result ≡ ended_of core whole }
{
    if core.frame.leads {
        return request_ended(core, whole);
    }
    slave_ended(core.frame.place, core, whole)
}

// The frame has ended, or the unit has done its part.
#[tactic(auto, unfolding(rules::specs::Endings::left_of))]
pub(crate) fn left(mut acted: Acted, frame: Frame) -> Acted
    ensures { result ≡ left_of acted frame }
{
    acted.core.frame = frame;
    acted
}

// "Start or idle inside a frame ends it there".
#[tactic(auto, unfolding(rules::specs::Endings::cut_of))]
pub(crate) fn cut(core: Core) -> Acted
    ensures { result ≡ cut_of core }
{
    match core.frame.place {
        Place::Waiting => acting(core, Act::Nothing),
        Place::In(_, _) => left(ended(core, false), done(core.frame)),
    }
}

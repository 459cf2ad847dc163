// What the events of a frame bring about in a unit.
ghost use Rattle.std.specs.Prelude.{◌≡◌};
ghost use Rattle.rules.specs.Slots.{byte_drawn, count_of, counted, header_of, last_acked, length_drawn};
ghost use Rattle.rules.specs.Slots.{next_drawn, on_addressed, on_byte_acked, on_control_acked, on_event};
ghost use Rattle.rules.specs.Slots.{on_length_acked, on_lost, other_party, reception_begun};
ghost use Rattle.rules.specs.Slots.{sending_begun, wanted, with_code, with_count};

use crate::endings::{cut, draws_bytes, ended, left, reception_code, request_ended};
use crate::state::{acting, own_byte};
use line::numbers::{CODE_SENDING, CODE_WANTED};
use moves::{with_length, writes};
use place::{Event, Frame};
use rules::state::{Act, Acted, Core, Seen};

// "After the first attempt and MCR's retries all lost, the request is aborted."
#[tactic(auto, unfolding(rules::specs::Slots::on_lost))]
fn on_lost(mut core: Core) -> Acted
    ensures { result ≡ on_lost core }
{
    if core.regs.losses < core.regs.retries {
        core.regs.losses += 1;
        return acting(core, Act::Nothing);
    }
    request_ended(core, false)
}

// "Master sending starts with the P slot of its own address".
#[tactic(auto, unfolding(rules::specs::Slots::on_addressed))]
fn on_addressed(mut core: Core) -> Core
    ensures { result ≡ on_addressed core }
{
    if core.frame.leads & writes(core.regs.control) {
        core.regs.marc = CODE_SENDING;
        return core;
    }
    core
}

// A code of the sending or reception under way: MARC for a master, SLRC for a slave.
#[tactic(auto, unfolding(rules::specs::Slots::with_code))]
fn with_code(mut core: Core, code: u8) -> Core
    ensures { result ≡ with_code core code }
{
    if core.frame.leads {
        core.regs.marc = code;
        return core;
    }
    core.regs.slrc = code;
    core
}

// "Slave sending at control ACK".
#[tactic(auto, unfolding(rules::specs::Slots::sending_begun))]
fn sending_begun(mut core: Core) -> Core
    ensures { result ≡ sending_begun core }
{
    if !core.frame.leads {
        core.regs.slrc = CODE_SENDING;
    }
    core
}

// "The length and each byte leave TBF as their field first begins."
#[tactic(auto, unfolding(rules::specs::Slots::length_drawn))]
fn length_drawn(mut core: Core, front: u8) -> Acted
    ensures { result ≡ length_drawn core front }
{
    core.frame = with_length(core.frame, front);
    acting(core, Act::Take)
}

// The length field begins: of TBF, or "length 1 and the status byte".
#[tactic(auto, unfolding(rules::specs::Slots::on_control_acked))]
fn on_control_acked(mut core: Core, seen: Seen) -> Acted
    ensures { result ≡ on_control_acked core seen }
{
    let frame = core.frame;
    if draws_bytes(frame) {
        return length_drawn(sending_begun(core), seen.front);
    }
    if frame.sends {
        core.frame = with_length(frame, 1);
        return acting(core, Act::Nothing);
    }
    acting(core, Act::Nothing)
}

// "Wanted comes when TBF is then empty with bytes to follow".
#[tactic(auto, unfolding(rules::specs::Slots::wanted, place::specs::Step::whole_of))]
fn data_wanted(frame: Frame, seen: Seen) -> bool
    ensures { result ≡ wanted frame seen }
{
    (seen.waiting <= 1) & !(frame.length <= frame.acked % 512 + 1)
}

#[tactic(auto, unfolding(rules::specs::Slots::byte_drawn))]
fn byte_drawn(mut core: Core, seen: Seen) -> Acted
    ensures { result ≡ byte_drawn core seen }
{
    let wanted = data_wanted(core.frame, seen);
    core.frame.byte = seen.front;
    if wanted {
        return acting(with_code(core, CODE_WANTED), Act::Take);
    }
    acting(core, Act::Take)
}

#[tactic(auto, unfolding(rules::specs::Slots::other_party))]
fn other_party(frame: Frame) -> u16
    ensures { result ≡ other_party frame }
{
    if frame.leads {
        frame.slave
    } else {
        frame.master
    }
}

// "A reception puts three bytes into RBF when length is accepted: other party's address high 8, low 4 with control,
// length".
#[tactic(auto, unfolding(rules::specs::Slots::header_of))]
fn header(frame: Frame) -> Act
    ensures { result ≡ header_of frame }
{
    let party = other_party(frame);
    let high = (party / 16 % 256) as u8;
    let low = (party % 16) as u8;
    Act::Header(
        high,
        low * 16 + frame.control % 16,
        (frame.length % 256) as u8,
    )
}

// "The RDR becomes 3 and grows by 1 per byte (RDR1 master, RDR2 slave and broadcast ..)".
#[tactic(auto, unfolding(rules::specs::Slots::with_count))]
fn with_count(mut core: Core, n: u8) -> Core
    ensures { result ≡ with_count core n }
{
    if core.frame.leads {
        core.regs.rdr1 = n;
        return core;
    }
    core.regs.rdr2 = n;
    core
}

#[tactic(auto, unfolding(rules::specs::Slots::count_of))]
fn count(core: Core) -> u8
    ensures { result ≡ count_of core }
{
    if core.frame.leads {
        core.regs.rdr1
    } else {
        core.regs.rdr2
    }
}

#[tactic(auto, unfolding(rules::specs::Slots::reception_begun))]
fn reception_begun(core: Core) -> Acted
    ensures { result ≡ reception_begun core }
{
    let frame = core.frame;
    let act = header(frame);
    acting(with_count(with_code(core, reception_code(frame)), 3), act)
}

// The first data field begins.
#[tactic(auto, unfolding(rules::specs::Slots::on_length_acked))]
fn on_length_acked(mut core: Core, seen: Seen) -> Acted
    ensures { result ≡ on_length_acked core seen }
{
    let frame = core.frame;
    if draws_bytes(frame) {
        return byte_drawn(core, seen);
    }
    if frame.sends {
        core.frame.byte = own_byte(core.regs, frame.control, seen.clear);
        return acting(core, Act::Nothing);
    }
    reception_begun(core)
}

// One byte more.
#[tactic(auto, unfolding(rules::specs::Slots::counted))]
fn count_more(core: Core) -> Core
    ensures { result ≡ counted core }
{
    let bytes = count(core) as u16;
    with_count(core, ((bytes + 1) % 256) as u8)
}

// "If TBF is empty when that byte is ACKed, sending aborts".
#[tactic(auto, unfolding(rules::specs::Slots::next_drawn))]
fn next_drawn(core: Core, seen: Seen) -> Acted
    ensures { result ≡ next_drawn core seen }
{
    if seen.waiting == 0 {
        return cut(core);
    }
    byte_drawn(core, seen)
}

// The next data field begins.
#[tactic(auto, unfolding(rules::specs::Slots::on_byte_acked))]
fn on_byte_acked(core: Core, byte: u8, seen: Seen) -> Acted
    ensures { result ≡ on_byte_acked core byte seen }
{
    let frame = core.frame;
    if draws_bytes(frame) {
        return next_drawn(core, seen);
    }
    if frame.sends {
        return acting(core, Act::Nothing);
    }
    acting(count_more(core), Act::Byte(byte))
}

// The frame ends with a byte ACKed, the last one or not. The frame is as it was before it ended.
#[tactic(auto, unfolding(rules::specs::Slots::last_acked))]
fn last_acked(core: Core, byte: u8, whole: bool) -> Acted
    ensures { result ≡ last_acked core byte whole }
{
    if core.frame.sends {
        return ended(core, whole);
    }
    acting(ended(count_more(core), whole).core, Act::Byte(byte))
}

// What an event brings about, from the unit before the slot and the frame after it.
#[tactic(auto, unfolding(rules::specs::Slots::on_event))]
pub(crate) fn on_event(event: Event, core: Core, next: Frame, seen: Seen) -> Acted
    ensures { result ≡ on_event event core next seen }
{
    let byte = (core.frame.shift % 256) as u8;
    let mut moved = core;
    moved.frame = next;
    match event {
        Event::Nothing => acting(moved, Act::Nothing),
        Event::Lost => on_lost(moved),
        Event::Addressed => acting(on_addressed(moved), Act::Nothing),
        Event::ControlAcked => on_control_acked(moved, seen),
        Event::LengthAcked => on_length_acked(moved, seen),
        Event::ByteAcked => on_byte_acked(moved, byte, seen),
        Event::AllAcked => left(last_acked(core, byte, true), next),
        Event::ShortAcked => left(last_acked(core, byte, false), next),
        Event::Aborted => left(ended(core, false), next),
    }
}

// Which of the host's words are refused, and why: the lowest number comes first. No public function has a `requires`,
// and nothing is assumed.
#![tactic(auto)]

ghost use Rattle.std.specs.Prelude.{◌≡◌};
ghost use Rattle.line.specs.Choice.{pick};
ghost use Rattle.rules.specs.Answers.{fine};
ghost use Rattle.rules.specs.Registers.{cmr_refusal, ctr_refusal, mcr_listed, read_refusal, request_refusal};
ghost use Rattle.rules.specs.Registers.{tbf_refusal, uar_refusal, write_refusal};

use line::numbers::{
    CMR_CLEAR_SLRE, CMR_COPY_LOCK, CMR_OFFER, CMR_REQUEST, CTR_NOTHING, CTR_RESET, CTR_SET_SLRE,
    REG_CMR, REG_CTR, REG_LOR2, REG_MCR, REG_RBF, REG_RCR, REG_SAR1, REG_SAR2, REG_TBF, REG_UAR1,
    REG_UAR2, TBF_BYTES,
};
use moves::writes;
use rules::answer::Refusal;
use rules::state::Registers;

fn refuse_if(met: bool, refusal: Refusal) -> Result<(), Refusal>
    ensures { result ≡ pick met (Err refusal) fine }
{
    if met {
        return Err(refusal);
    }
    Ok(())
}

// "CTR (00H nothing, 08H reset, 10H set SLRE)".
#[tactic(auto, unfolding(rules::specs::Registers::ctr_refusal))]
fn check_ctr(v: u8) -> Result<(), Refusal>
    ensures { result ≡ ctr_refusal v }
{
    let listed = (v == CTR_NOTHING) | (v == CTR_RESET) | (v == CTR_SET_SLRE);
    refuse_if(!listed, Refusal::UnlistedValue)
}

// "CMR (08H master request, 0BH offer slave data, 0FH clear SLRE, .. 40H copy the lock into LOR ..)".
#[tactic(auto, unfolding(rules::specs::Registers::cmr_refusal))]
fn check_cmr(regs: Registers, waiting: usize, v: u8) -> Result<(), Refusal>
    ensures { result ≡ cmr_refusal regs waiting v }
{
    let request = v == CMR_REQUEST;
    let offer = v == CMR_OFFER;
    let listed = request | offer | (v == CMR_CLEAR_SLRE) | (v == CMR_COPY_LOCK);
    refuse_if(!listed, Refusal::UnlistedValue)?;
    let busy = regs.marq | regs.strq;
    refuse_if((request | offer) & busy, Refusal::OutOfTurn)?;
    let sends = (request & writes(regs.control)) | offer;
    refuse_if(sends & (waiting < 2), Refusal::TooFew)?;
    let to_itself = request & regs.bit & (regs.slave == regs.own);
    refuse_if(to_itself | (offer & !regs.enabled), Refusal::Unable)
}

// "UAR with MARQ, STRQ, SLRE or locked".
#[tactic(auto, unfolding(rules::specs::Registers::uar_refusal))]
fn check_uar(regs: Registers, listed: bool) -> Result<(), Refusal>
    ensures { result ≡ uar_refusal regs listed }
{
    refuse_if(!listed, Refusal::UnlistedValue)?;
    refuse_if(
        regs.marq | regs.strq | regs.slre | regs.locked,
        Refusal::OutOfTurn,
    )
}

// SAR and MCR with MARQ.
#[tactic(auto, unfolding(rules::specs::Registers::request_refusal))]
fn check_request(regs: Registers, listed: bool) -> Result<(), Refusal>
    ensures { result ≡ request_refusal regs listed }
{
    refuse_if(!listed, Refusal::UnlistedValue)?;
    refuse_if(regs.marq, Refusal::OutOfTurn)
}

// Neither "MCR control undefined" nor "MCR broadcast with a read control".
#[tactic(auto, unfolding(rules::specs::Registers::mcr_listed))]
fn mcr_listed(v: u8) -> bool
    ensures { result ≡ mcr_listed v }
{
    let control = v % 16;
    writes(control) | ((0x80 <= v) & ((control == 0) | ((3 <= control) & (control <= 7))))
}

// "TBF write at 33 bytes".
#[tactic(auto, unfolding(rules::specs::Registers::tbf_refusal))]
fn check_tbf(waiting: usize) -> Result<(), Refusal>
    ensures { result ≡ tbf_refusal waiting }
{
    refuse_if(TBF_BYTES <= waiting, Refusal::Full)
}

// "Written: 0H CTR .. 1H CMR .. 2H UAR1 .. 3H UAR2 .. 4H SAR1 .. 5H SAR2. 6H MCR .. EH TBF". The register is a number,
// so that every word that a host can write has its answer.
#[tactic(auto, unfolding(rules::specs::Registers::write_refusal))]
pub fn check_write(regs: Registers, waiting: usize, register: u8, v: u8) -> Result<(), Refusal>
    ensures { result ≡ write_refusal regs waiting register v }
{
    match register {
        REG_CTR => check_ctr(v),
        REG_CMR => check_cmr(regs, waiting, v),
        REG_UAR1 => check_uar(regs, v / 4 % 4 == 0),
        REG_UAR2 => check_uar(regs, true),
        REG_SAR1 => check_request(regs, v % 16 == 0),
        REG_SAR2 => check_request(regs, true),
        REG_MCR => check_request(regs, mcr_listed(v)),
        REG_TBF => check_tbf(waiting),
        _ => Err(Refusal::UnlistedRegister),
    }
}

// "Read: 0H STR .. 1H FLG .. 2H RDR1, 3H RDR2. 4H LOR1 .. 5H LOR2 .. 8H RCR .. EH RBF"; "RBF read when empty".
#[tactic(auto, unfolding(rules::specs::Registers::read_refusal))]
pub fn check_read(register: u8, clear: bool) -> Result<(), Refusal>
    ensures { result ≡ read_refusal register clear }
{
    if (register <= REG_LOR2) | (register == REG_RCR) {
        return Ok(());
    }
    if register == REG_RBF {
        return refuse_if(clear, Refusal::Empty);
    }
    Err(Refusal::UnlistedRegister)
}

// The contest of several masters that begin a frame with the same start slot: the contenders go by value. A refusal
// writes nothing. The public function has no `requires`, and nothing is assumed.
#![tactic(auto)]

ghost use Rattle.std.specs.Prelude.{Ok, ◌≡◌, ◌<◌, ◌≤◌, length};
ghost use Rattle.line.specs.Numbers.{most_contenders};
ghost use Rattle.contenders.specs.Contest.{Contested, NamedRightly, contenders_of, verdict_of};
ghost use Rattle.contenders.specs.Contest.{first_out, first_twin, in_range, number_of};
ghost use Rattle.contest.specs.Deciding.{Fair, Found, Least, Losses, differs};

use contenders::{Contender, Contenders, ContestError};
use line::numbers::{CONTEST_SLOTS, HIGHEST_ADDRESS, LAST_CONTEST_SLOT, MOST_CONTENDERS};

#[tactic(auto, unfolding(contenders::specs::Contest::in_range))]
fn in_range(contender: Contender) -> bool
    ensures { result ≡ in_range contender }
{
    (contender.bit <= 1) & (contender.address <= HIGHEST_ADDRESS)
}

#[tactic(auto, unfolding(contenders::specs::Contest::number_of))]
fn number(contender: Contender) -> u32
    ensures { result ≡ number_of contender }
{
    u32::from(contender.bit) * 4096 + u32::from(contender.address)
}

// The slot in which a contender first differs from the winner, so in which it loses; 0 where it never does, as
// the number list has it.
#[tactic(auto, unfolding(line::specs::Parity::level_of))]
fn lost_in(winner: u32, number: u32) -> u32
    ensures { result ≡ differs 13 winner number }
{
    for left in (0..CONTEST_SLOTS).rev() {
        if (number >> left) % 2 != (winner >> left) % 2 {
            return LAST_CONTEST_SLOT - left;
        }
    }
    0
}

// The place of the first contender out of range.
fn first_out(contenders: &[Contender]) -> Option<usize>
    ensures { Found contenders.now (first_out contenders.now) result }
{
    contenders
        .iter()
        .position(|contender| !in_range(*contender))
}

// The lowest place whose contender occurs again later.
fn first_twin(contenders: &[Contender]) -> Option<usize>
    ensures { Found contenders.now (first_twin contenders.now) result }
{
    for (place, contender) in contenders.iter().enumerate() {
        if contenders[place + 1..].contains(contender) {
            return Some(place);
        }
    }
    None
}

// The place of a contender with the lowest number of all.
fn least(contenders: &[Contender]) -> usize
    requires { (0 < length contenders.now) × (length contenders.now ≤ most_contenders) }
    ensures { Least contenders.now result }
{
    contenders
        .iter()
        .enumerate()
        .min_by_key(|(_, contender)| number(**contender))
        .map_or(0, |(place, _)| place)
}

// Writes for each contender the slot in which it first differs from the number given.
fn put_losses(contenders: &[Contender], winner: u32, lost: &mut [u32])
    requires { length contenders.now ≤ length lost.old }
    ensures { Losses winner contenders.now lost.old lost.new }
{
    // no `lost.iter_mut().zip(contenders)`: nothing is known then of the numbers that it wrote
    for (place, contender) in contenders.iter().enumerate() {
        lost[place] = lost_in(winner, number(*contender));
    }
}

// The contest where nothing is to be refused.
fn decide(contenders: &[Contender], lost: &mut [u32]) -> usize
    requires some { 0 < length contenders.now }
    requires few { length contenders.now ≤ most_contenders }
    requires room { length contenders.now ≤ length lost.old }
    requires fair { Fair contenders.now }
    ensures whole { Contested contenders.now lost.old (Ok result) lost.new }
    ensures named { NamedRightly contenders.now (verdict_of (Ok result)) }
{
    let best = least(contenders);
    put_losses(contenders, number(contenders[best]), lost);
    best
}

// The contest: the winner's place. `lost` gets, at each contender's place, the slot in which it lost, 0 for the winner;
// further places keep their contents, and so do all where the contest is refused.
pub fn contest(all: Contenders, lost: &mut [u32]) -> Result<usize, ContestError>
    ensures whole { Contested (contenders_of all) lost.old result lost.new }
    ensures named { NamedRightly (contenders_of all) (verdict_of result) }
{
    if lost.len() < all.count {
        return Err(ContestError::ShortList);
    }
    if all.count == 0 {
        return Err(ContestError::WrongCount);
    }
    if MOST_CONTENDERS < all.count {
        return Err(ContestError::WrongCount);
    }
    let contenders = &all.list[..all.count];
    if let Some(place) = first_out(contenders) {
        return Err(ContestError::OutOfRange(place));
    }
    if let Some(place) = first_twin(contenders) {
        return Err(ContestError::Alike(place));
    }
    Ok(decide(contenders, lost))
}

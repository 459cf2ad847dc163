// A roll that a host in C keeps as bytes: who joins and leaves it, and who would go next. Any bytes of a roll's size
// are some roll; a call that changes it writes all of them, so that they are then the bytes of that roll and no others.
// No public function has a `requires`, and nothing is assumed.
#![tactic(auto)]

ghost use Rattle.std.specs.Prelude.{◌≡◌, ◌<◌, ◌≤◌, MatchOption};
ghost use Rattle.line.specs.Numbers.{most_contenders};
ghost use Rattle.contest.specs.Deciding.{Found};
ghost use Rattle.rolls.specs.Kept.{Begins, Joins, Leaves, Shows, asked, count_in, number_for, request_at, requests_in};
ghost use Rattle.rolls.specs.Relied.{Relied};
ghost use Rattle.roll_keeper.specs.Keeping.{Asked, Lowest, change_of, left_at, number_place, put_of, refused_as, written_of};

use line::numbers::{
    BAD_SIZE, HIGHEST_ADDRESS, MOST_CONTENDERS, REFUSED_CONTENDER_RANGE, REFUSED_ROLL_ABSENT,
    REFUSED_ROLL_ALIKE, REFUSED_ROLL_FULL, ROLL_BYTES,
};

// Above the number of who is shown: somebody is.
const SOMEBODY: u32 = 0x8000;

// Why a call is refused.
#[derive(Clone, Copy, Debug, PartialEq, Eq)]
enum RollError {
    OutOfRange,
    Size,
    Alike,
    Full,
    Absent,
}

impl RollError {
    #[tactic(auto, unfolding(rolls::specs::Kept::number_for))]
    fn number(self) -> u32
        ensures { result ≡ number_for (refused_as self) }
    {
        match self {
            RollError::OutOfRange => u32::from(REFUSED_CONTENDER_RANGE),
            RollError::Size => BAD_SIZE,
            RollError::Alike => u32::from(REFUSED_ROLL_ALIKE),
            RollError::Full => u32::from(REFUSED_ROLL_FULL),
            RollError::Absent => u32::from(REFUSED_ROLL_ABSENT),
        }
    }
}

// How a call ended, as a host in C is told it.
#[tactic(auto, unfolding(rolls::specs::Kept::number_for))]
fn told(end: Result<(), RollError>) -> u32
    ensures { result ≡ number_for (change_of end) }
{
    match end {
        Ok(()) => 0,
        Err(error) => error.number(),
    }
}

// A request as its number. C gives any two numbers, so this is not the contest's test of a contender. Where it is always
// inlined, a call that is refused does not make the number first.
#[inline(always)]
#[tactic(auto, unfolding(contenders::specs::Contest::in_range, contenders::specs::Contest::number_of))]
fn asked(bit: u32, address: u32) -> Result<u16, RollError>
    ensures { Asked (asked bit address) result }
{
    if bit <= 1 && address <= u32::from(HIGHEST_ADDRESS) {
        Ok((bit * 4096 + address) as u16)
    } else {
        Err(RollError::OutOfRange)
    }
}

fn count(roll: &[u8; ROLL_BYTES]) -> usize
    ensures { result ≡ count_in roll.now }
{
    usize::from(roll[0]).min(MOST_CONTENDERS)
}

// The request at a place, as its number. Three functions ask that a place is below 50, and no type says it: places are
// of ranges up to the count, or the count, and each turn would have to make the type from its number.
fn request(roll: &[u8; ROLL_BYTES], place: usize) -> u16
    requires { place < most_contenders }
    ensures { result ≡ request_at roll.now place }
{
    u16::from_le_bytes([roll[2 * place + 1], roll[2 * place + 2]]) % 8192
}

// The first place of a request.
fn place_of(roll: &[u8; ROLL_BYTES], number: u16) -> Option<usize>
    ensures { Found (requests_in roll.now) (number_place number (requests_in roll.now)) result }
{
    (0..count(roll)).find(|place| request(roll, *place) == number)
}

// The lowest number of all.
fn lowest(roll: &[u8; ROLL_BYTES]) -> Option<u16>
    ensures { MatchOption result (count_in roll.now ≡ 0) (λ n. Lowest (requests_in roll.now) n) }
{
    (0..count(roll)).map(|place| request(roll, place)).min()
}

fn put_request(roll: &mut [u8; ROLL_BYTES], place: usize, number: u16)
    requires { place < most_contenders }
    ensures { roll.new ≡ put_of place number roll.old }
{
    let [low, high] = number.to_le_bytes();
    roll[2 * place + 1] = low;
    roll[2 * place + 2] = high;
}

// The request at a place of the roll without the one at `gone`, where the others close up; 0 past the last.
fn request_left(roll: &[u8; ROLL_BYTES], end: usize, gone: usize, place: usize) -> u16
    requires { (end ≤ most_contenders) × (place < most_contenders) }
    ensures { result ≡ left_at roll.now end gone place }
{
    let from = place + usize::from(gone <= place);
    if from < end { request(roll, from) } else { 0 }
}

// Writes all requests anew without that at `gone`, and 0 behind them; the count stays as it was. What is read stands no
// further in front than what is written.
fn put_without(roll: &mut [u8; ROLL_BYTES], gone: usize)
    ensures { roll.new ≡ written_of gone roll.old }
{
    let end = count(roll);
    for place in 0..end {
        let number = request_left(roll, end, gone, place);
        put_request(roll, place, number);
    }
    roll[2 * end + 1..].fill(0);
}

fn begin(roll: &mut [u8]) -> Result<(), RollError>
    ensures { Begins roll.old (number_for (change_of result)) roll.new }
{
    let Some(roll) = roll.as_mut_array::<ROLL_BYTES>() else {
        return Err(RollError::Size);
    };
    roll.fill(0);
    Ok(())
}

fn join(roll: &mut [u8], bit: u32, address: u32) -> Result<(), RollError>
    ensures { Joins (asked bit address) roll.old (number_for (change_of result)) roll.new }
{
    let number = asked(bit, address)?;
    let Some(roll) = roll.as_mut_array::<ROLL_BYTES>() else {
        return Err(RollError::Size);
    };
    if place_of(roll, number).is_some() {
        return Err(RollError::Alike);
    }
    let end = count(roll);
    if MOST_CONTENDERS <= end {
        return Err(RollError::Full);
    }
    // nobody goes: what the requests and the places past them hold is made plain
    put_without(roll, end);
    put_request(roll, end, number);
    roll[0] = (end + 1) as u8;
    Ok(())
}

fn leave(roll: &mut [u8], bit: u32, address: u32) -> Result<(), RollError>
    ensures { Leaves (asked bit address) roll.old (number_for (change_of result)) roll.new }
{
    let number = asked(bit, address)?;
    let Some(roll) = roll.as_mut_array::<ROLL_BYTES>() else {
        return Err(RollError::Size);
    };
    let Some(place) = place_of(roll, number) else {
        return Err(RollError::Absent);
    };
    let end = count(roll);
    put_without(roll, place);
    roll[0] = (end - 1) as u8;
    Ok(())
}

fn show(roll: &[u8], shown: &mut u32) -> Result<(), RollError>
    ensures { Shows roll.now shown.old (number_for (change_of result)) shown.new }
{
    let Some(roll) = roll.as_array::<ROLL_BYTES>() else {
        return Err(RollError::Size);
    };
    *shown = match lowest(roll) {
        Some(number) => SOMEBODY + u32::from(number),
        None => 0,
    };
    Ok(())
}

// An empty roll: 0, or 100.
#[unsafe(no_mangle)]
#[tactic(auto, using(rolls::proofs::Relied::relied))]
pub extern "C" fn iebus_roll_begin(roll: &mut [u8]) -> u32
    ensures whole { Begins roll.old result roll.new }
    ensures relied { Relied }
{
    told(begin(roll))
}

// A request joins the roll, as its last: 0, or 14, 100, 22 or 21.
#[unsafe(no_mangle)]
#[tactic(auto, using(rolls::proofs::Relied::relied))]
pub extern "C" fn iebus_roll_join(roll: &mut [u8], bit: u32, address: u32) -> u32
    ensures whole { Joins (asked bit address) roll.old result roll.new }
    ensures relied { Relied }
{
    told(join(roll, bit, address))
}

// A request leaves the roll, and the others stay in their order: 0, or 14, 100 or 23.
#[unsafe(no_mangle)]
#[tactic(auto, using(rolls::proofs::Relied::relied))]
pub extern "C" fn iebus_roll_leave(roll: &mut [u8], bit: u32, address: u32) -> u32
    ensures whole { Leaves (asked bit address) roll.old result roll.new }
    ensures relied { Relied }
{
    told(leave(roll, bit, address))
}

// Who would win the line, told in `shown`: 0, or 100.
#[unsafe(no_mangle)]
#[tactic(auto, using(rolls::proofs::Relied::relied))]
pub extern "C" fn iebus_roll_shown(roll: &[u8], shown: &mut u32) -> u32
    ensures whole { Shows roll.now shown.old result shown.new }
    ensures relied { Relied }
{
    told(show(roll, shown))
}

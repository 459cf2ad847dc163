// The list run "over byte slices, each word little-endian; it returns 0 or a refusal".
ghost use Rattle.std.specs.Prelude.{◌≡◌, ◌+◌, ◌≤◌, length};
ghost use Rattle.unit.specs.Unit.{state_of};
ghost use Rattle.lists.specs.Bytes.{CalledBytes, byte_refusal, state_after, words_of};
ghost use Rattle.list_run.specs.Run.{RunsSpelled, number_of, unit_left, unit_or, word_at, word_put};

use answers::{ListError, answer_word, check_bytes};
use lent::step::Lent;
use line::numbers::{RBF_BYTES, TBF_BYTES};
use rules::answer::Refusal;
use unit::step::Unit;

// How many bytes spell a word.
const WORD_BYTES: usize = 4;

// The word that starts at a place of a byte list, the lowest byte first. Of its own, with the size above: it is one
// call of the library, and the unit does not rest on `words`, which is for the programs and counts places in words.
fn word_at(bytes: &[u8], at: usize) -> u32
    requires { at + 4 ≤ length bytes.now }
    ensures { result ≡ word_at bytes.now at }
{
    u32::from_le_bytes([bytes[at], bytes[at + 1], bytes[at + 2], bytes[at + 3]])
}

// A word written from a place of a byte list on, the lowest byte first.
fn put_word(bytes: &mut [u8], at: usize, word: u32)
    requires { at + 4 ≤ length bytes.old }
    ensures { bytes.new ≡ word_put bytes.old at word }
{
    bytes[at..at + WORD_BYTES].copy_from_slice(&word.to_le_bytes());
}

// The words that bytes spell, run in order by a unit whose buffers are lent; what stands past the last answer is kept.
// A loop of its own beside that of `run`: words there are places of a u32 slice, and four bytes here. It goes over
// places: tried with `chunks_exact_mut`, after which the kit says nothing of what the list that was cut holds.
fn run_spelled(
    mut lent: Lent,
    words: &[u8],
    answers: &mut [u8],
    tbf: &mut [u8; TBF_BYTES],
    rbf: &mut [u8; RBF_BYTES],
) -> Lent
    requires { byte_refusal words.now answers.old ≡ 0 }
    ensures { RunsSpelled lent words.now answers.old answers.new
        tbf.old tbf.new rbf.old rbf.new result }
{
    for at in (0..words.len()).step_by(WORD_BYTES) {
        let after = lent.step(word_at(words, at), tbf, rbf);
        lent = after.lent;
        // "A refused word in a list does not stop the list": its answer is of kind 15.
        let Ok(reply) = after.answer else {
            put_word(answers, at, answer_word(after.answer));
            continue;
        };
        put_word(answers, at, answer_word::<Refusal>(Ok(reply)));
    }
    lent
}

// The words run from the unit given. The answer to the word at byte at stands at byte at of `answers`; bytes past the
// last answer keep their contents. Refused where the bytes are no whole words, or else where `answers` is shorter than
// `words`; then nothing is run and nothing written. Each word is ruled as the tables of refusals say, and the holder of
// the lock is protected from everybody else's frames.
#[tactic(auto, unfolding(crate::specs::Run::unit_left, lists::specs::Bytes::state_after, lists::specs::Bytes::bytes_after))]
pub fn run_bytes(from: Unit, words: &[u8], answers: &mut [u8]) -> Result<Unit, ListError>
    ensures called { CalledBytes (state_of from) words.now answers.old (number_of result)
        answers.new }
    ensures left { state_of (unit_or from result) ≡ state_after (state_of from) words.now answers.old }
    ensures whole { unit_or from result ≡ unit_left (number_of result) from (words_of words.now) }
{
    check_bytes(words.len(), answers.len())?;
    let mut tbf = from.tbf.bytes;
    let mut rbf = from.rbf.bytes;
    let left = run_spelled(from.lent(), words, answers, &mut tbf, &mut rbf);
    Ok(Unit::from_lent(left, tbf, rbf))
}

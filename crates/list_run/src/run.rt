// "A list run takes a lent list of words and writes each answer into a second lent list, from a given state."
ghost use Rattle.std.specs.Prelude.{◌≡◌, ◌≤◌, length};
ghost use Rattle.unit.specs.Unit.{state_of};
ghost use Rattle.lists.specs.Run.{Called};
ghost use Rattle.list_run.specs.Run.{RunsLent, number_of, unit_left, unit_or};

use answers::{ListError, answer_word};
use lent::step::Lent;
use line::numbers::{RBF_BYTES, TBF_BYTES};
use rules::answer::Refusal;
use unit::step::Unit;

// The words run in order by a unit whose buffers are lent; what stands past the last answer is kept.
fn run_lent(
    mut lent: Lent,
    words: &[u32],
    answers: &mut [u32],
    tbf: &mut [u8; TBF_BYTES],
    rbf: &mut [u8; RBF_BYTES],
) -> Lent
    requires { length words.now ≤ length answers.old }
    ensures { RunsLent lent words.now answers.old answers.new tbf.old
        tbf.new rbf.old rbf.new result }
{
    for (i, word) in words.iter().enumerate() {
        let after = lent.step(*word, tbf, rbf);
        lent = after.lent;
        // "A refused word in a list does not stop the list": its answer is of kind 15.
        let Ok(reply) = after.answer else {
            answers[i] = answer_word(after.answer);
            continue;
        };
        answers[i] = answer_word::<Refusal>(Ok(reply));
    }
    lent
}

// The words run from the unit given. The answer to words[i] stands at answers[i]; places past the last answer keep
// their contents. Where the answer list is shorter than the word list, nothing is run and nothing written. Each word is
// ruled as the tables of refusals say, a refused one with the unit unchanged. The holder of the lock is protected from
// everybody else's frames, in the unit that is left and in the answers.
#[tactic(auto, unfolding(crate::specs::Run::unit_left, lists::specs::Run::list_refusal, lists::specs::Run::unit_after, lists::specs::Run::answers_after))]
pub fn run(from: Unit, words: &[u32], answers: &mut [u32]) -> Result<Unit, ListError>
    ensures called { Called (state_of from) words.now answers.old (number_of result)
        (state_of (unit_or from result)) answers.new }
    ensures whole { unit_or from result ≡ unit_left (number_of result) from words.now }
{
    if answers.len() < words.len() {
        return Err(ListError::ShortList);
    }
    let mut tbf = from.tbf.bytes;
    let mut rbf = from.rbf.bytes;
    let left = run_lent(from.lent(), words, answers, &mut tbf, &mut rbf);
    Ok(Unit::from_lent(left, tbf, rbf))
}

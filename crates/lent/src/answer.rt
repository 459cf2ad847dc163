// What a word is answered.
ghost use Rattle.std.specs.Prelude.{◌≡◌};
ghost use Rattle.lent.specs.Both.{answer_to, reply_to};

use rules::answer::{Answer, Refusal, Reply};

// What an accepted word came to: its answer, but for what the unit drives next.
#[derive(Clone, Copy)]
pub(crate) enum Outcome {
    Taken,
    Written,
    Read(u8),
}

impl Outcome {
    fn reply(self, drive: u8) -> Reply
        ensures { result ≡ reply_to self drive }
    {
        match self {
            Outcome::Taken => Reply::Taken(drive),
            Outcome::Written => Reply::Written(drive),
            Outcome::Read(value) => Reply::Read(value, drive),
        }
    }
}

// The answer to a word, from what it came to and what the unit then drives.
pub(crate) fn answer_to(came: Result<Outcome, Refusal>, drive: u8) -> Answer
    ensures { result ≡ answer_to came drive }
{
    match came {
        Ok(outcome) => Ok(outcome.reply(drive)),
        Err(refusal) => Err(refusal),
    }
}

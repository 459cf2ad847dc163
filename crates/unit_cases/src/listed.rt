// A second unit, which is given in lists the words that a first one was given one by one. Its answers are compared.
ghost use Rattle.std.specs.Prelude.{◌≡◌, ◌≤◌};

use list_run::run::run;
use unit::step::Unit;

// How many words a list has, but for the last. The words and what was said to them are two lists and no list of pairs,
// which is no plainer: `run` takes the words as a list, and its answers are compared with the other list as a whole.
const LIST_WORDS: usize = 250;

// The unit, the words of the list that is next with what the first unit said to each, how many words were given, and
// how many places of the answer lists were wrong.
#[derive(Clone, Copy)]
pub(crate) struct Listed {
    unit: Unit,
    words: [u32; LIST_WORDS],
    said: [u32; LIST_WORDS],
    held: usize,
    given: u64,
    wrong: u64,
    ghost within: { held ≤ 250 },
}

impl Listed {
    pub(crate) fn new() -> Listed {
        Listed {
            unit: Unit::reset(),
            words: [0; LIST_WORDS],
            said: [0; LIST_WORDS],
            held: 0,
            given: 0,
            wrong: 0,
        }
    }

    // One more word, and what the first unit said to it. A list that is full goes to the unit first.
    pub(crate) fn takes(&mut self, word: u32, said: u32) {
        if self.held == LIST_WORDS {
            self.compare();
        }
        self.words[self.held] = word;
        self.said[self.held] = said;
        self.held += 1;
    }

    // The list goes to the unit: each answer is to be the one that was given to the word by itself, and places past the
    // last answer are to keep their 0.
    fn compare(&mut self)
        ensures { self.new.held ≡ 0 }
    {
        let mut answers = [0; LIST_WORDS];
        self.unit = run(self.unit, &self.words[..self.held], &mut answers).unwrap_or(self.unit);
        let wrong = answers
            .iter()
            .zip(self.said.iter())
            .filter(|(answer, said)| answer != said)
            .count();
        self.wrong = self.wrong.wrapping_add(wrong as u64);
        self.given = self.given.wrapping_add(self.held as u64);
        self.said = [0; LIST_WORDS];
        self.held = 0;
    }

    // The last list goes to the unit, and what came of all is printed. Where nobody reads it, nothing is left to do.
    pub(crate) fn show(&mut self, rt: &impl Print) {
        self.compare();
        let given = self.given;
        let wrong = self.wrong;
        let _ = println!(rt; "in lists: words {given} wrong {wrong}");
    }
}

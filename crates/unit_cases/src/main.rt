// Runs one unit over a text of words, levels and expectations: the cases of document 01 that are run and not proved,
// and a long life of frames. The text is the program's standard input, and says at its head how it is read. A second
// unit is given the same words in lists, and its answers are compared.
#![tactic(auto)]

mod bench;
mod listed;
mod shared;

use crate::bench::Bench;
use crate::listed::Listed;
use answers::answer_word;
use pieces::read_full;
use unit::step::Unit;

// Room for the text, and one byte more, by which a longer one is seen.
const TEXT_BYTES: usize = 32769;

// So many characters are read at most, those of a repeated group counted each time, so that every text comes to an
// end; one that goes on does not print its last lines. The thousand rounds have six million.
const MOST_CHARACTERS: usize = 20_000_000;

// A unit, and the bench that it is on.
#[derive(Clone, Copy)]
struct Life {
    unit: Unit,
    bench: Bench,
}

impl Life {
    fn new() -> Life {
        Life {
            unit: Unit::reset(),
            bench: Bench::fresh(0),
        }
    }

    // A character of the text is read; if it has a word for the unit, the word goes to it and the answer to the bench.
    // The result is both.
    fn reads(&mut self, rt: &impl Print, character: u8) -> Option<(u32, u32)> {
        let word = self.bench.reads(rt, character)?;
        let stepped = self.unit.step(word);
        self.unit = stepped.unit;
        let answer = answer_word(stepped.answer);
        self.bench.answered(answer);
        Some((word, answer))
    }
}

fn run(rt: &impl Print, script: &[u8]) {
    let mut life = Life::new();
    let mut listed = Listed::new();
    for _ in 0..MOST_CHARACTERS {
        let Some(character) = script.get(life.bench.at) else {
            listed.show(rt);
            return;
        };
        if let Some((word, said)) = life.reads(rt, *character) {
            listed.takes(word, said);
        }
    }
}

fn main(rt: HostRuntime) {
    let mut input = [0u8; TEXT_BYTES];
    let count = read_full(&mut rt.stdin(), &mut input);
    if count == TEXT_BYTES {
        let _ = rt.println("the text is too long");
        return;
    }
    run(&rt, &input[..count]);
}

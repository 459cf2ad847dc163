// A unit on a bench: the host that writes and reads its registers, the line that it shares with another party, and
// the text that says what both do and what is to come of it, read character by character.
use crate::shared::{driven, settled, slot_said, slot_word};
use line::numbers::{KIND_READ, KIND_REFUSED, KIND_VALUE, KIND_WRITE, SLOT_START};
use line::slot::Slot;

// A sum over answers that tells their order too: each time the sum is multiplied and the answer added, modulo the
// largest prime below 2^32.
const PRIME: u64 = 4_294_967_291;

const FACTOR: u64 = 65_599;

// The kinds of words and answers, in the top four bits: the host writes, and it reads; a value, and a refusal.
const WRITE: u32 = KIND_WRITE * 0x1000_0000;

const READ: u32 = KIND_READ * 0x1000_0000;

const VALUE: u32 = KIND_VALUE * 0x1000_0000;

const REFUSED: u32 = KIND_REFUSED * 0x1000_0000;

// A word of the host's that reads RBF.
const RBF_READ: u32 = 0x2E00_0000;

// The bits of an answer that say its kind and its value.
const KIND_AND_VALUE: u32 = 0xF000_00FF;

// An operation that has a number of three figures.
#[derive(Clone, Copy)]
enum Asked {
    Write,
    Read,
    Group,
}

// Its figures that were read, how many, and the number that they make.
#[derive(Clone, Copy)]
struct Figures {
    asked: Asked,
    count: u8,
    number: u32,
}

// What a character of the text belongs to: an operation, a remark, what is printed, a letter in it that stands for a
// number, or the figures of an operation.
#[derive(Clone, Copy)]
enum Part {
    Operation,
    Remark,
    Printed,
    Letter,
    Figures(Figures),
}

#[derive(Clone, Copy, Default)]
struct Counts {
    words: u64,
    frames: u64,
    refused: u64,
    // Slots and values other than those awaited, and how many when the text last counted or began a group.
    wrong: u64,
    wrong_before: u64,
    // Bytes that the host read from RBF.
    stored: u64,
    // What the text has counted.
    counted: u64,
}

// A group of the text: where it begins, how often it is to be run, and how often it was.
#[derive(Clone, Copy, Default)]
struct Group {
    from: usize,
    turns: u32,
    turned: u32,
    // The sum of all answers in this turn and in the first one, and how many turns had the first's.
    sum: u64,
    first: u64,
    alike: u64,
}

#[derive(Clone, Copy)]
pub(crate) struct Bench {
    // Where in the text the next character stands, and what it belongs to.
    pub at: usize,
    part: Part,
    // The latest word, and what a read is to be answered: kind and value.
    word: u32,
    awaited: u32,
    // The latest answer, and what the unit drives: bits 9-8 of the latest one that is no refusal.
    answer: u32,
    drive: Slot,
    counts: Counts,
    group: Group,
}

// What a figure says. Any character may stand for one, so `to_digit` of a char, which knows sixteen, does not serve.
fn figure_said(character: u8) -> u32 {
    u32::from(character % 16 + character / 64 * 9)
}

// One more is counted if it is so.
fn count(number: &mut u64, one: bool) {
    *number = number.wrapping_add(u64::from(one));
}

impl Group {
    // The end of a turn, and whether there is another: the group is run as often as asked for, at least once.
    fn turn(&mut self) -> bool {
        if self.turned == 0 {
            self.first = self.sum;
        }
        count(&mut self.alike, self.sum == self.first);
        self.turned = self.turned.wrapping_add(1);
        let again = self.turned < self.turns;
        if again {
            self.sum = 0;
        }
        again
    }
}

impl Bench {
    // All counts 0, at a place of the text, and a unit that drives nothing, as after a reset.
    pub(crate) fn fresh(at: usize) -> Bench {
        Bench {
            at,
            part: Part::Operation,
            word: 0,
            awaited: 0,
            answer: 0,
            drive: Slot::Level(true),
            counts: Counts::default(),
            group: Group {
                from: at,
                ..Group::default()
            },
        }
    }

    // A character of the text is read. If it has a word for the unit, that is the result.
    pub(crate) fn reads(&mut self, rt: &impl Print, character: u8) -> Option<u32> {
        self.at = self.at.wrapping_add(1);
        match self.part {
            Part::Operation => return self.operation(character),
            Part::Figures(figures) => return self.figure(figures, character),
            Part::Remark => {
                if character == b'\n' {
                    self.part = Part::Operation;
                }
            }
            Part::Printed => self.printed(rt, character),
            Part::Letter => {
                self.part = Part::Printed;
                self.shows(rt, character);
            }
        }
        None
    }

    fn operation(&mut self, character: u8) -> Option<u32> {
        if let Some((other, awaited)) = slot_said(character) {
            return Some(self.slot(other, awaited));
        }
        match character {
            b' ' | b'\n' => {}
            b'#' => self.part = Part::Remark,
            b'"' => self.part = Part::Printed,
            b'w' => self.asked(Asked::Write),
            b'r' => self.asked(Asked::Read),
            b'(' => self.asked(Asked::Group),
            b')' => {
                if self.group.turn() {
                    self.at = self.group.from;
                }
            }
            b'+' => {
                let right = self.counts.wrong == self.counts.wrong_before;
                count(&mut self.counts.counted, right);
                self.counts.wrong_before = self.counts.wrong;
            }
            b'R' => *self = Bench::fresh(self.at),
            _ => count(&mut self.counts.wrong, true),
        }
        None
    }

    fn slot(&mut self, other: Slot, awaited: Slot) -> u32 {
        self.word = slot_word(settled(other, self.drive));
        count(&mut self.counts.wrong, self.word != slot_word(awaited));
        self.word
    }

    fn asked(&mut self, asked: Asked) {
        self.part = Part::Figures(Figures {
            asked,
            count: 0,
            number: 0,
        });
    }

    // A figure of an operation's number, or a blank between two. With the third the operation is carried out.
    fn figure(&mut self, mut figures: Figures, character: u8) -> Option<u32> {
        if character == b' ' {
            return None;
        }
        figures.number = figures.number << 4 | figure_said(character);
        if figures.count < 2 {
            figures.count += 1;
            self.part = Part::Figures(figures);
            return None;
        }
        self.part = Part::Operation;
        self.carried_out(figures.asked, figures.number)
    }

    fn carried_out(&mut self, asked: Asked, number: u32) -> Option<u32> {
        match asked {
            Asked::Write => self.word = WRITE | number >> 8 << 24 | number & 0xFF,
            Asked::Read => {
                self.word = READ | number >> 8 << 24;
                self.awaited = VALUE | number & 0xFF;
            }
            Asked::Group => {
                self.group = Group {
                    from: self.at,
                    turns: number,
                    first: self.group.first,
                    ..Group::default()
                };
                self.counts.wrong_before = self.counts.wrong;
                return None;
            }
        }
        Some(self.word)
    }

    // The answer is a word here, not an enum: it is summed, printed and compared with what the text awaits as a word.
    pub(crate) fn answered(&mut self, answer: u32) {
        self.answer = answer;
        self.group.sum = (self.group.sum % PRIME * FACTOR + u64::from(answer)) % PRIME;
        count(&mut self.counts.words, true);
        count(&mut self.counts.frames, self.word == SLOT_START);
        let missed = self.word >= READ && answer & KIND_AND_VALUE != self.awaited;
        count(&mut self.counts.wrong, missed);
        if answer >= REFUSED {
            count(&mut self.counts.refused, true);
            return;
        }
        count(&mut self.counts.stored, self.word == RBF_READ);
        self.drive = driven(answer);
    }

    // Where nobody reads what is printed, nothing is left to do.
    fn printed(&mut self, rt: &impl Print, character: u8) {
        match character {
            b'"' => self.part = Part::Operation,
            b'$' => self.part = Part::Letter,
            _ => {
                let _ = rt.write_all(&[character]);
            }
        }
    }

    // By its letter, as the text's head has it; an enum of letters would be the same table once more.
    fn number_of(&self, letter: u8) -> u64 {
        match letter {
            b'a' => u64::from(self.answer),
            b'v' => u64::from(self.answer) % 256,
            b'l' => u64::from(self.word),
            b'f' => self.counts.frames,
            b'w' => self.counts.words,
            b'r' => self.counts.refused,
            b'x' => self.counts.wrong,
            b'b' => self.counts.stored,
            b'+' => self.counts.counted,
            b'=' => self.group.alike,
            b't' => u64::from(self.group.turned),
            b'1' => self.group.first,
            _ => self.group.sum,
        }
    }

    // By its letter too. Where nobody reads what is printed, nothing is left to do.
    fn shows(&self, rt: &impl Print, letter: u8) {
        let number = self.number_of(letter);
        let _ = match letter {
            b'a' | b'1' | b'2' => print!(rt; "{number:08x}"),
            b'v' => print!(rt; "{number:02x}"),
            b'/' => print!(rt; "\n"),
            _ => print!(rt; "{number}"),
        };
    }
}

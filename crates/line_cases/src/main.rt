// Runs the contest on the cases that document 01 names and on one of each refusal, and prints for each its number, the
// place named and the first numbers of the list, which held 99 everywhere. Contenders go by value, and then as a lent
// list of records.
#![tactic(auto)]

use contenders::{Contender, Contenders, ContestError, Verdict};

// Where nobody reads what is printed, nothing is left to do.
fn say(rt: &impl Print, text: &str) {
    let _ = rt.print(text);
}

fn number(rt: &impl Print, x: u64) {
    let _ = print!(rt; " {x}");
}

fn show(rt: &impl Print, outcome: Result<usize, ContestError>, lost: &[u32; 52]) {
    let verdict = Verdict::of(outcome);
    number(rt, u64::from(verdict.number));
    number(rt, verdict.place as u64);
    say(rt, " list");
    for place in [0usize, 1, 2, 49, 50] {
        number(rt, u64::from(lost[place]));
    }
    say(rt, "\n");
}

// The contest over a list of 52 numbers.
fn run(rt: &impl Print, contenders: Contenders) {
    let mut lost = [99u32; 52];
    let outcome = contest::contest(contenders, &mut lost);
    show(rt, outcome, &lost);
}

// The contest over a list of one number only.
fn run_short(rt: &impl Print, contenders: Contenders) {
    let mut lost = [99u32; 52];
    let outcome = contest::contest(contenders, &mut lost[..1]);
    show(rt, outcome, &lost);
}

// The contest over a list of records that is lent to it.
fn run_lent(rt: &impl Print, records: [Contender; 3]) {
    let mut lost = [99u32; 52];
    let outcome = records::contest(&records, &mut lost);
    show(rt, outcome, &lost);
}

// Contenders with the ordinary addresses from 7FFH downwards.
fn many(count: usize) -> Contenders {
    let mut all = Contenders::new(count);
    for (place, address) in (0..50).zip((0..=0x7FF).rev()) {
        all = all.with(place, 1, address);
    }
    all
}

fn ordinary(address: u16) -> Contender {
    Contender { bit: 1, address }
}

fn lent_cases(rt: &impl Print) {
    say(rt, "lent, 0FEH beats 0FFH and 100H:");
    run_lent(rt, [ordinary(0x100), ordinary(0x0FF), ordinary(0x0FE)]);
    say(rt, "lent, address 1000H at place 1:");
    run_lent(rt, [ordinary(5), ordinary(0x1000), ordinary(0x1001)]);
    say(rt, "lent, places 0 and 2 alike:");
    run_lent(rt, [ordinary(5), ordinary(6), ordinary(5)]);
}

// Number 15 names the lowest place whose contender occurs again later.
fn alike_cases(rt: &impl Print) {
    say(rt, "places 1 and 2 alike:");
    run(
        rt,
        Contenders::new(3).with(0, 0, 5).with(1, 1, 5).with(2, 1, 5),
    );
    say(rt, "places 0 and 3, 1 and 2 alike:");
    run(
        rt,
        Contenders::new(4)
            .with(0, 1, 5)
            .with(1, 1, 6)
            .with(2, 1, 6)
            .with(3, 1, 5),
    );
}

fn main(rt: HostRuntime) {
    let rt = &rt;
    say(rt, "0FFH beats 100H:");
    run(rt, Contenders::new(2).with(0, 1, 0x100).with(1, 1, 0x0FF));
    say(rt, "broadcast FFFH beats ordinary 000H:");
    run(rt, Contenders::new(2).with(0, 1, 0x000).with(1, 0, 0xFFF));
    say(rt, "one alone:");
    run(rt, Contenders::new(1).with(0, 1, 0x525));
    say(rt, "50 taken:");
    run(rt, many(50));
    say(rt, "51 refused:");
    run(rt, many(51));
    say(rt, "no contender:");
    run(rt, Contenders::new(0));
    say(rt, "bit 2 at place 1:");
    run(
        rt,
        Contenders::new(3).with(0, 1, 5).with(1, 2, 6).with(2, 2, 7),
    );
    say(rt, "address 1000H at place 2:");
    run(
        rt,
        Contenders::new(3)
            .with(0, 1, 5)
            .with(1, 0, 0xFFF)
            .with(2, 1, 0x1000),
    );
    alike_cases(rt);
    say(rt, "a list of one number for two:");
    run_short(rt, Contenders::new(2).with(0, 1, 0x100).with(1, 1, 0x0FF));
    lent_cases(rt);
}

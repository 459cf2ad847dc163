// The contest over "a lent list of records, each a broadcast bit and an address". Nothing is decided here: one function
// reads a record and hands its two numbers on, and the others pass the list to it and what was gathered to the core.
// No public function has a `requires`, and nothing is assumed.
#![tactic(auto)]

ghost use Rattle.std.specs.Prelude.{◌≡◌, ◌<◌, length};
ghost use Rattle.contenders.specs.Contest.{Contested, NamedRightly, verdict_of};
ghost use Rattle.records.specs.Gathered.{with_record, gathered_of};

use contenders::{Contender, Contenders, ContestError};
use line::numbers::MOST_CONTENDERS;

// One record, handed on as two numbers: "thin functions read one record and call covered code on two numbers".
fn with_record(all: Contenders, records: &[Contender], place: usize) -> Contenders
    requires { place < length records.now }
    ensures { result ≡ with_record all records.now place }
{
    let record = records[place];
    all.with(place, record.bit, record.address)
}

// The records as the core takes them: number 13 needs none past the first 50.
pub fn gathered(records: &[Contender]) -> Contenders
    ensures { result ≡ gathered_of records.now }
{
    let mut all = Contenders::new(records.len());
    for place in 0..records.len().min(MOST_CONTENDERS) {
        all = with_record(all, records, place);
    }
    all
}

// The contest: the winner's place. `lost` gets, at each contender's place, the slot in which it lost, 0 for the winner;
// further places keep their contents, and so do all where the contest is refused.
pub fn contest(records: &[Contender], lost: &mut [u32]) -> Result<usize, ContestError>
    ensures whole { Contested records.now lost.old result lost.new }
    ensures named { NamedRightly records.now (verdict_of result) }
{
    contest::contest(gathered(records), lost)
}

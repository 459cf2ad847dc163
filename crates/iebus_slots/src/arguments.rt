// The arguments: least and most width for 0, for 1 and for start, each a decimal number.
ghost use Rattle.std.specs.Prelude.{◌≡◌};
ghost use Rattle.iebus_slots.specs.Arguments.{asked_of, range_of};
ghost use Rattle.pieces.specs.Decimal.{number_of};

use pieces::number;
use pulses::{Range, Setting};

// The texts of a range's two widths.
#[derive(Clone, Copy)]
pub(crate) struct Ends<'a> {
    pub(crate) least: &'a [u8],
    pub(crate) most: &'a [u8],
}

#[tactic(auto, unfolding(crate::specs::Arguments::range_of))]
fn range(ends: Ends) -> Option<Range>
    ensures { result ≡ range_of (number_of ends.entry.least.now) (number_of ends.entry.most.now) }
{
    Some(Range {
        least: number(ends.least)?,
        most: number(ends.most)?,
    })
}

// The setting that six texts say.
#[tactic(auto, unfolding(crate::specs::Arguments::setting_of))]
pub(crate) fn setting_asked(zero: Ends, one: Ends, start: Ends) -> Option<Setting>
    ensures { result ≡ asked_of zero.entry.least.now zero.entry.most.now one.entry.least.now
        one.entry.most.now start.entry.least.now start.entry.most.now }
{
    Some(Setting {
        zero: range(zero)?,
        one: range(one)?,
        start: range(start)?,
    })
}

// What the arguments ask for.
ghost use Rattle.std.specs.Prelude.{◌≡◌};
ghost use Rattle.iebus_load.specs.Arguments.{asked_of};

use pieces::number;

// How a log is shown: by a summary or, as SVG, by a plot.
#[derive(Clone, Copy, Debug, PartialEq, Eq)]
pub(crate) enum View {
    Summary,
    Plot,
}

#[derive(Clone, Copy, Debug, PartialEq, Eq)]
pub(crate) struct Wanted {
    pub(crate) view: View,
    pub(crate) window: u32,
}

// There are so many arguments with the program's own name.
#[tactic(auto, unfolding(crate::specs::Arguments::asked_of))]
pub(crate) fn asked(count: usize, window: &[u8], second: &[u8]) -> Option<Wanted>
    ensures { result ≡ asked_of count window.now second.now }
{
    let window = u32::from(number(window)?);
    if count < 3 {
        Some(Wanted {
            view: View::Summary,
            window,
        })
    } else if second == b"svg".as_slice() {
        Some(Wanted {
            view: View::Plot,
            window,
        })
    } else {
        None
    }
}

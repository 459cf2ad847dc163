// The summary of a log, and the plot of its figures.
//
// A text and the place in it stay two parameters: `Put`, the contract of whatever writes, is over both. A writer that
// holds them needs a lifetime and a `Model` of its own, and is no plainer, as each call of `put_form` stays one line.
ghost use Rattle.std.specs.Prelude.{◌≡◌, ◌<◌, ◌≤◌};
ghost use Rattle.pieces.specs.Pieces.{Put};
ghost use Rattle.iebus_load.specs.Forms.{woven};
ghost use Rattle.iebus_load.specs.Output.{facts_of, most_slots, text_of, whole_by};
ghost use Rattle.iebus_load.specs.Texts.{curve_of, head_form, head_numbers, percent_of, summary_numbers, summary_of};
ghost use Rattle.iebus_load.specs.Texts.{LogFacts, plot_of, tail_form, tail_numbers};
ghost use Rattle.iebus_load.specs.Writing.{OfLog, Sized, Told};

use crate::arguments::{View, Wanted};
use crate::forms::put_form;
use loads::{LoadError, Peak};
use meter::busy_of;
use std::marker::Model;

// What is told of a log beside its figures. Percentages can be made of each.
#[derive(Clone, Copy)]
struct Facts {
    slots: u32,
    busy: u32,
    window: u32,
    largest: u32,
    place: u32,
}

impl Model for Facts {
    ghost Value = { LogFacts };

    ghost view = { λ f. record {
      slots = f.slots;
      busy = f.busy;
      window = f.window;
      largest = f.largest;
      place = f.place;
    } };

    ghost inverse = { λ f. record {
      slots = f.slots;
      busy = f.busy;
      window = f.window;
      largest = f.largest;
      place = f.place;
    } };

    ghost invariant = { λ f. Sized (record {
      slots = f.slots;
      busy = f.busy;
      window = f.window;
      largest = f.largest;
      place = f.place;
    }) };
}

fn percent(part: u32, whole: u32) -> u32
    requires { (part ≤ most_slots) × (0 < whole) }
    ensures { result ≡ percent_of part whole }
{
    part * 100 / whole
}

#[tactic(auto, unfolding(crate::specs::Texts::summary_numbers))]
fn summary_numbers(f: Facts) -> [u32; 7]
    ensures { result ≡ summary_numbers f }
{
    [
        f.slots,
        f.busy,
        percent(f.busy, f.slots),
        f.window,
        f.largest,
        percent(f.largest, f.window),
        f.place,
    ]
}

#[tactic(auto, unfolding(crate::specs::Texts::summary_of))]
fn put_summary(text: &mut [u8], f: Facts) -> usize
    ensures { Put text.old 0 (summary_of f) result text.new }
{
    let form: &[u8] = b"@ slots\n\
        @ not idle\n\
        @ % of the slots\n\
        @ slots in the window\n\
        @ not idle there at most\n\
        @ % of the window\n\
        @ is the first slot after which it was so\n";
    put_form(text, 0, form, &summary_numbers(f))
}

#[tactic(auto, unfolding(crate::specs::Texts::head_numbers))]
fn head_numbers(f: Facts) -> [u32; 14]
    ensures { result ≡ head_numbers f }
{
    let quarter = (f.slots + 3) / 4;
    [
        f.window,
        f.largest,
        percent(f.largest, f.window),
        f.place,
        f.busy,
        f.slots,
        percent(f.busy, f.slots),
        quarter,
        quarter * 2,
        quarter * 3,
        quarter * 4,
        quarter * 4,
        f.window,
        f.window,
    ]
}

#[tactic(auto, unfolding(crate::specs::Texts::head_form))]
fn put_head(text: &mut [u8], f: Facts) -> usize
    ensures { Put text.old 0 (woven head_form (head_numbers f)) result text.new }
{
    let form: &[u8] =
        b"<svg xmlns=\"http://www.w3.org/2000/svg\" viewBox=\"0 0 960 400\" font-family=\"sans-serif\" \
        font-size=\"15\">\n\
        <title>Load of the line</title>\n\
        <rect width=\"960\" height=\"400\" fill=\"#fff\"/>\n\
        <text x=\"70\" y=\"30\" font-size=\"19\">Slots not idle among the latest @</text>\n\
        <text x=\"70\" y=\"55\" fill=\"#a30\">at most @, @ %, first after slot @</text>\n\
        <text x=\"910\" y=\"55\" text-anchor=\"end\">@ of @ slots not idle, @ %</text>\n\
        <g text-anchor=\"end\">\n\
        <text x=\"62\" y=\"85\">100 %</text>\n\
        <text x=\"62\" y=\"155\">75 %</text>\n\
        <text x=\"62\" y=\"225\">50 %</text>\n\
        <text x=\"62\" y=\"295\">25 %</text>\n\
        <text x=\"62\" y=\"365\">0 %</text>\n\
        </g>\n\
        <g text-anchor=\"middle\">\n\
        <text x=\"70\" y=\"384\">slot 0</text>\n\
        <text x=\"280\" y=\"384\">@</text>\n\
        <text x=\"490\" y=\"384\">@</text>\n\
        <text x=\"700\" y=\"384\">@</text>\n\
        <text x=\"910\" y=\"384\">@</text>\n\
        </g>\n\
        <svg x=\"70\" y=\"80\" width=\"840\" height=\"280\" viewBox=\"0 0 @ @\" \
        preserveAspectRatio=\"none\">\n\
        <g transform=\"matrix(1 0 0 -1 0 @)\">\n\
        <path fill=\"#58a\" d=\"M0 0\n";
    put_form(text, 0, form, &head_numbers(f))
}

fn put_curve(text: &mut [u8], at: usize, figures: &[u32]) -> usize
    ensures { Put text.old at (curve_of figures.now) result text.new }
{
    let mut end = at;
    for figure in figures {
        end = put_form(text, end, b"V@h1\n", &[*figure]);
    }
    end
}

// Where the mark of the largest figure stands, and how far up it goes.
#[tactic(auto, unfolding(crate::specs::Texts::tail_numbers))]
fn tail_numbers(f: Facts) -> [u32; 2]
    ensures { result ≡ tail_numbers f }
{
    let slots = (f.slots + 3) / 4 * 4;
    [
        70 + (f.place * 2 + 1) * 420 / slots,
        360 - f.largest * 280 / f.window,
    ]
}

#[tactic(auto, unfolding(crate::specs::Texts::tail_form))]
fn put_tail(text: &mut [u8], at: usize, f: Facts) -> usize
    ensures { Put text.old at (woven tail_form (tail_numbers f)) result text.new }
{
    let form: &[u8] = b"V0z\"/>\n\
        </g>\n\
        </svg>\n\
        <path fill=\"none\" stroke=\"#000\" stroke-opacity=\".2\" d=\"M70 80H910M70 150H910M70 220H910M70 \
        290H910M70 360H910M70 80V360M280 80V360M490 80V360M700 80V360M910 80V360\"/>\n\
        <path stroke=\"#a30\" stroke-width=\"2\" d=\"M@ 360V@\"/>\n\
        </svg>\n";
    put_form(text, at, form, &tail_numbers(f))
}

#[tactic(auto, unfolding(crate::specs::Texts::plot_of))]
fn put_plot(text: &mut [u8], f: Facts, figures: &[u32]) -> usize
    ensures { Put text.old 0 (plot_of f figures.now) result text.new }
{
    let at = put_head(text, f);
    let at = put_curve(text, at, figures);
    put_tail(text, at, f)
}

// The summary, or the plot, from the beginning of the text on.
fn put_text(text: &mut [u8], view: View, f: Facts, figures: &[u32]) -> usize
    ensures { Put text.old 0 (text_of view f figures.now) result text.new }
{
    match view {
        View::Plot => put_plot(text, f, figures),
        View::Summary => put_summary(text, f),
    }
}

fn facts_of(w: u32, slots: &[u32], peak: Peak) -> Facts
    requires { OfLog w slots.now peak }
    ensures { result ≡ facts_of w slots.now peak }
{
    Facts {
        slots: slots.len() as u32,
        busy: busy_of(slots) as u32,
        window: w,
        largest: peak.largest,
        place: peak.place as u32,
    }
}

// What is written of a log whose figures ended so: nothing where there is none.
#[tactic(auto, unfolding(crate::specs::Output::whole_by))]
pub(crate) fn put_loaded(
    text: &mut [u8],
    wanted: Wanted,
    ended: Result<Option<Peak>, LoadError>,
    slots: &[u32],
    figures: &[u32],
) -> usize
    requires { Told wanted.window ended slots.now }
    ensures { Put text.old 0 (whole_by wanted.view wanted.window ended slots.now figures.now)
        result text.new }
{
    match ended {
        Ok(Some(peak)) => {
            let facts = facts_of(wanted.window, slots, peak);
            put_text(text, wanted.view, facts, figures)
        }
        Ok(None) | Err(_) => 0,
    }
}

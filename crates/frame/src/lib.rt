// Every decision that a frame asks for, level by level. What it rests on of registers, buffers and lock is handed to it
// as plain values (`View`); what a slot brings about is handed back as an `Event`, on which the unit acts. The public
// function has no `requires`, and nothing is assumed.
#![tactic(auto)]

mod header;
mod judging;
mod step;
mod text;

pub use step::level;

// A unit that holds its buffers, and what it makes of every word: the step over lent buffers, by value. No public
// function has a `requires`, and nothing is assumed.
#![tactic(auto)]

pub mod buffers;
pub mod step;

// A unit whose buffers are lent, and what it makes of every word: a slot by `slots`, a word of the host's by
// `registers`, and the buffers here. No public function has a `requires`, and nothing is assumed.
#![tactic(auto)]

mod answer;
pub mod buffers;
mod host;
mod plain;
pub mod step;

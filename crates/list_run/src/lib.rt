// The list run, over words and over the bytes that spell them. No public function has a `requires`, and nothing is
// assumed.
#![tactic(auto)]

pub mod bytes;
pub mod run;

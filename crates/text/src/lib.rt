// The text that the program `listing` prints, as bytes: a line for a word and its answer, the decision of the last
// line, and the whole listing. No public function has a `requires`, and nothing is assumed.
#![tactic(auto)]

mod hex;
pub mod last;
pub mod listing;

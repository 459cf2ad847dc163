// Line and parity, the lowest of the four libraries: what a slot word says, the parity of a field, and the figures of
// document 01. No public function has a `requires`, and nothing is assumed.
#![tactic(auto)]

pub mod numbers;
pub mod parity;
pub mod slot;

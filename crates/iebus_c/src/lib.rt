// The static library that a host in C links: a function is called from C only where a crate of this kind has it. Each
// hands on to that of the same name in a library of this repository, whose contract it has word for word
// (tests/statements compares them). No function has a `requires`, and nothing is assumed.
#![tactic(auto)]

pub mod of_line;
pub mod of_roll;
pub mod of_unit;

// A unit that lasts: the state of a unit as bytes that a host in C keeps between calls. No public function has a
// `requires`, and nothing is assumed.
#![tactic(auto)]

mod buffers;
pub mod calls;
mod layout;
mod scalars;
mod whole;

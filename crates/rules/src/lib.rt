// The rules of a unit as definitions over its state (`specs/`), in the order of document 01, and what follows from
// them: demand 1 word by word, and demand 3 (`proofs/`). Of code there is
// only a refusal's number: `unit` is the code, each function of it equal to what the rules give.
#![tactic(auto)]

pub mod answer;
pub mod state;

// The contest and the units are one rule: units that begin a frame with the same start slot, each reading the settled
// level of what they all drive, lose and win as the contest says (`specs/`, `proofs/`). There is no code here.

#![tactic(auto)]

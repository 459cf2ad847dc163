// Demand 3, for any machine that takes words: what it is for the holder of a lock to be protected from everybody else's
// frames (`specs/`), and that it follows from what the machine does at one word (`proofs/`). There is no code here.

#![tactic(auto)]

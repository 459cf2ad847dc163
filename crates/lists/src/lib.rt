// The rules of a list run, over words and over the bytes that spell them (`specs/`), and what follows for whoever calls
// one, whatever its code: one answer for each word, demand 1 for each of them, demand 3 for two lists, and that calls
// one after the other are one call (`proofs/`). There is no code here: `list_run` is the code.

#![tactic(auto)]

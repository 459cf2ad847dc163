// The roll of requests for the line: who joins and leaves it, who would go next, and the bytes in which a host keeps
// it. It is said by definitions (`specs/`), with the laws that a display relies on (`proofs/`). There is no code here:
// `roll_keeper` is the code.

#![tactic(auto)]

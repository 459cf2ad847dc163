// A unit kept as bytes between calls: where its parts lie, the bytes as a state and back, and what each call of a host
// does to them (`specs/`); and what follows for whoever makes the calls, whatever their code (`proofs/`): bytes that
// keep a state give it back, a refused call changes nothing, and a list in any pieces is one run. There is no code
// here: `lasting` is the code.

#![tactic(auto)]

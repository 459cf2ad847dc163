// The rules run on whole lists of words: stories, and two lists and a desk to which demand 3 and the law of the status
// byte are applied (`proofs/`). There is no code here, and no edit is tried: inside `rules`, what is computed would
// cost its seconds in each edit of a rule.

#![tactic(auto)]

// Rules 1 to 3 of the C functions, in what C passes and gets: a specification and its proofs, no code.
#![tactic(auto)]

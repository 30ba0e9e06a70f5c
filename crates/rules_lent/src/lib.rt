// Rules 1 and 3 of the functions over a lent session: a specification and its proofs, no code.
#![tactic(auto)]

// Lists of a session's calls, and rule 1 for each: a specification and its proofs, no code.
#![tactic(auto)]

// No code: the worked cases P1 to P12 as one table (specs/Cases.antt), proved of the walk's definition (proofs/Rows.antt).
#![tactic(auto)]

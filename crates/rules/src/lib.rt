// The customer's rules as theorems over the definitions of the other crates: specs/ states them, proofs/ proves them.
#![tactic(auto)]

// What is promised of the walk a descriptor at a time, as theorems over the definitions of the other crates: specs/ states them, proofs/ proves them.
#![tactic(auto)]

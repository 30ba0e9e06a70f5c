// The theorem that no written page is lost: specs/ states it, proofs/ proves it.
#![tactic(auto)]

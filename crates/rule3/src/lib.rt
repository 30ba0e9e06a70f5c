// Rule 3: what a session answers, for every list of its calls. The statement is in specs/, its proof in proofs/.
#![tactic(auto)]

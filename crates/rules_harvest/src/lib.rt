// What a harvest promises: see specs/.
#![tactic(auto)]

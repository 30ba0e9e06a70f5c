// Steps of walks by hand over a lent struct. No proof takes them today; they are kept, since the documents and an edit name them. Laws only: no code.
#![tactic(auto)]

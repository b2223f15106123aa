// Theorems about the definitions of the counter, with the runs that they speak of. There is no code here: see specs/ and proofs/.
#![tactic(auto)]

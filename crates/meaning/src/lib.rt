// What a description means is said in specs/ and proved in proofs/: there is no program here.
#![tactic(auto)]

// How a description and an answer are written is said in specs/ and proved in proofs/: there is no program here.
#![tactic(auto)]

// Which choices of parts communication goes through is said in specs/ and proved in proofs/ to be enough: there is no program here.
#![tactic(auto)]

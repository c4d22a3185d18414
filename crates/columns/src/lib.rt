// Which column a refusal of a line has is said in specs/ a second time, in the request's words, and proved in proofs/ of how texts are read:
// there is no program here.
#![tactic(auto)]

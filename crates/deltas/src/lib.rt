// What is new in the sets of a round. There is no code here: these are laws that what is worked out goes by.
#![tactic(auto)]

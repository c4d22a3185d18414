// What a section of lines comes to and leaves in a table. There is no code here: these are definitions and laws that the readers of sections
// share.
#![tactic(auto)]

// Communication: the labels of a row with all that comes of them by rules, put into a set that stands at the start of words of its
// own. Rules are applied to disjoint parts of labels, any number of them.
#![tactic(auto)]

pub mod closing;
mod following;

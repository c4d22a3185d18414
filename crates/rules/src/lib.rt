// The rules of comm: where an application leads from a label of which rules have taken some parts. Rules stand in a list of
// labels: each is two labels, its left side and that of the one action on its right.
#![tactic(auto)]

use labels::Label;

pub mod steps;

// How far rules have been applied to a label: what no rule has taken yet, and the label that it makes together with the results,
// which are set aside.
#[derive(Clone, Copy)]
pub struct State {
    pub rest: Label,
    pub sum: Label,
}

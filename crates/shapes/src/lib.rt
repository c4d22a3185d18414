// The shapes of terms: what the set of a term is built of.
#![tactic(auto)]

pub mod shaping;

use labels::Label;
use slots::Operator;

// What the set of a term is built of, and how: nothing; one label; the set of an equation's body in the round before; the set of a
// term; those of two terms, with every sum of their labels or without; the sums alone; the set of a term through an operator.
#[derive(Clone, Copy)]
pub enum Shape {
    Empty,
    Leaf(Label),
    Body(usize),
    One(usize),
    Two(usize, usize, bool),
    Joint(usize, usize),
    Through(Operator, usize),
}

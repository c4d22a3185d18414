// What becomes of labels on the way into a set: they are copied, or go through one of the five operators. The set stands at the
// start of words of its own.
#![tactic(auto)]

pub mod allowing;
pub mod imaging;

// The labels are copied, or go through one of the five operators with its list.
#[derive(Clone, Copy)]
pub enum Way {
    Copy,
    Block,
    Hide,
    Rename,
    Comm,
    Allow,
}

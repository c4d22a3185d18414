// Ascending sets of labels, each laid in a lent slice of words: search and insertion. No function asks for ascending parts:
// what it says holds of any words, and that ascending parts stay ascending is a law beside it.
#![tactic(auto)]

pub mod ascending;
pub mod inserting;

// A set would pass a limit: it finds no room for a label, or one of its labels has over 31 actions.
#[derive(Clone, Copy, Debug, PartialEq, Eq)]
pub struct TooLarge;

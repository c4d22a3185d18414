// A label packed in two words: the counts of names 0 to 11 in the lower and those of names 12 to 23 in the upper, five bits for each,
// so that the label's number is the lower word and the upper one 60 bits up. The four highest bits of a lower word are no name's and are
// passed over. What is made of bags of actions is in `bags`; the empty label and the order of labels are in `packing`. How labels stand
// in lent words is said in the crate `areas`. Every function answers for every two words, also such as pack no label.
#![tactic(auto)]

pub mod bags;
pub mod packing;

// How many names there are at most, how many words a label takes, and how many actions it may have.
pub const NAMES: usize = 24;

pub const LABEL_WORDS: usize = 2;

pub const MOST_ACTIONS: u64 = 31;

// How many names a word has, and one more than the highest number that their counts make: 2 to the power 60.
pub const WORD_NAMES: u64 = 12;

pub const WORD_END: u64 = 1152921504606846976;

#[derive(Clone, Copy)]
pub struct Label {
    pub lower: u64,
    pub upper: u64,
}

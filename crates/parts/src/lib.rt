// Where sets of labels lie in one lent slice of words. Places are counted in labels. The parts that a set is built from stand before
// it: what of such a part stands elsewhere is passed over.
#![tactic(auto)]

pub mod placing;

// How many labels a set may have.
pub const MOST_LABELS: usize = 1024;

// The words of as many labels.
pub const MOST_WORDS: usize = 2048;

// The labels of the slice from a place up to another.
#[derive(Clone, Copy)]
pub struct Part {
    pub from: usize,
    pub to: usize,
}

// Where a set is built: it stands at a place and holds so many labels; it may grow to `most`, to 1,024 and to the end of the
// slice.
#[derive(Clone, Copy)]
pub struct Target {
    pub at: usize,
    pub len: usize,
    pub most: usize,
}

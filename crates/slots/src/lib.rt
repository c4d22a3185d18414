// A term of a description as the code looks at it, and the word in which a slot of the table keeps it.
//
// A term is an enum; the five operators with a list are an inner enum, each with the place of its list among the lists that stand
// beside the table.
#![tactic(auto)]

pub mod packing;

// Where a list stands: it is the list of the term with this number, and has so many entries.
#[derive(Clone, Copy)]
pub struct Place {
    pub at: usize,
    pub entries: usize,
}

// The operators with a list, each with the place of its list.
#[derive(Clone, Copy)]
pub enum Operator {
    Block(Place),
    Hide(Place),
    Rename(Place),
    Comm(Place),
    Allow(Place),
}

// A term of each kind: the number of a name or an equation, or those of its operands, which are earlier terms.
#[derive(Clone, Copy)]
pub enum Term {
    Delta,
    Tau,
    Act(usize),
    Ref(usize),
    Sum(usize),
    Cond(usize),
    Choice(usize, usize),
    IfElse(usize, usize),
    Seq(usize, usize),
    Merge(usize, usize),
    LMerge(usize, usize),
    Sync(usize, usize),
    Wrap(Operator, usize),
}

// The lines of terms, one at a time: what form each has, what it says and which faults it has.
#![tactic(auto)]

mod kinds;
pub mod terms;

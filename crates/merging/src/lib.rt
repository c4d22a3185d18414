// Two parts in one set: their union, by one walk over both.
#![tactic(auto)]

pub mod joining;
pub mod walking;

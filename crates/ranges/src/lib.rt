// The numbers of a term: whether they are in range, and where each that is not begins.
#![tactic(auto)]

ghost use Rattle.std.specs.Prelude.{◌≡◌, ◌-◌, length};
ghost use Rattle.table.specs.Terms.{bare_term};
ghost use Rattle.grammar.specs.Faults.{number_fault};
ghost use Rattle.faults.specs.CodedFaults.{found_of};
ghost use Rattle.ranges.specs.Ranges.{both_out, out_of_range};

use faults::{Fault, FaultAt, found_unless, worse_of};
use slots::Term;

// What the numbers of a term are held to: references to the number of equations, operands to the term's own.
#[derive(Clone, Copy)]
pub struct Bounds {
    pub equations: usize,
    pub term: usize,
}

// Where the numbers of a term begin, the first twice where there is one.
#[derive(Clone, Copy)]
pub struct Places {
    pub first: usize,
    pub second: usize,
}

// How many bytes are left from a place of the text on.
pub fn left_at(rest: &[u8], at: usize) -> usize
    ensures { result ≡ length rest.now - at }
{
    rest.len().saturating_sub(at)
}

// The fault of a number that is not below its bound.
pub fn number_fault(n: usize, bound: usize, from: usize) -> Option<FaultAt>
    ensures { found_of result ≡ number_fault bound n from }
{
    found_unless(n < bound, Fault::Range, from)
}

// Of two numbers the first that is out of range.
fn both_fault(t: usize, u: usize, bound: usize, at: Places) -> Option<FaultAt>
    ensures { found_of result ≡ both_out bound t u at }
{
    let first = number_fault(t, bound, at.first);
    let second = number_fault(u, bound, at.second);
    worse_of(first, second)
}

// Operands have smaller numbers than the term, references one below the number of equations.
pub fn range_fault(x: Term, at: Places, bounds: Bounds) -> Option<FaultAt>
    ensures { found_of result ≡ out_of_range bounds (bare_term x) at }
{
    match x {
        Term::Delta | Term::Tau | Term::Act(_) => None,
        Term::Ref(e) => number_fault(e, bounds.equations, at.first),
        Term::Sum(t) | Term::Cond(t) | Term::Wrap(_, t) => number_fault(t, bounds.term, at.first),
        Term::Choice(t, u)
        | Term::IfElse(t, u)
        | Term::Seq(t, u)
        | Term::Merge(t, u)
        | Term::LMerge(t, u)
        | Term::Sync(t, u) => both_fault(t, u, bounds.term, at),
    }
}

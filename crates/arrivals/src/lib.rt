// What is new in the set of a term: what the new labels of its operands give, before those are left out that its set has already.
// Sets stand in the work area, and new labels in the log; where, is kept in a row of parts for each. In the row of new labels the
// equations come after the terms: what is new for a ref is what was new in the body in the round before.
#![tactic(auto)]

pub mod arriving;
pub mod looking;

ghost use Rattle.std.specs.Prelude.{◌≡◌};
ghost use Rattle.arrivals.specs.Arriving.{news_of};

use table::TERMS;

// The place of an equation in the row of new labels.
pub fn news_of(e: usize) -> usize
    ensures { result ≡ news_of e }
{
    if e < 65536 { TERMS + e } else { TERMS + 65536 }
}

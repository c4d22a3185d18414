// The tails of term lines: what follows the word of a kind, with the LF that ends the line.
//
// As in `words`, what is lent is the rest of the text, and an answer says how many bytes it took or after how many it is stuck.
#![tactic(auto)]

mod plains;
mod wraps;

ghost use Rattle.tails.specs.Tails.{TailRead};

use crate::plains::read_plain;
use crate::wraps::read_wrap;
use faults::FaultAt;
use ranges::Bounds;
use slots::Term;
use table::NAMES;
use words::{Reading, Stuck};

// A term with the fault of its line.
#[derive(Clone, Copy)]
pub struct TermLine {
    pub term: Term,
    pub fault: Option<FaultAt>,
}

// What follows the word of the kind at a place among the kinds: the term at its number, its list's words put into the store. The LF
// that ends the line is among the bytes that it takes. With more names than a description has nothing is read. The place stays a number,
// here and in `plains` and `wraps`, and no enum: every number has its tail (`TailRead`), and the table holds the same one.
pub fn read_tail(
    k: usize,
    rest: &[u8],
    names: &[u64],
    bounds: Bounds,
    store: &mut [u64],
) -> Reading<TermLine>
    ensures { TailRead names.now bounds k rest.now store.old store.new result }
{
    if NAMES < names.len() {
        return Err(Stuck { after: 0 });
    }
    if k < 12 {
        return read_plain(k, rest, names, bounds);
    }
    read_wrap(k, rest, names, bounds, store)
}

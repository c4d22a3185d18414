// A term packed in a word: its kind in the lowest five bits, then up to three numbers of 16 bits each, the third that of the entries of
// its list. A number that takes more than 16 bits is cut; a legal description has none.
//
// A kind's number is its place in the list of kinds that a line is held to (`kinds` in `crates/grammar/specs/Forms.antt`). Delta
// is 0, so that a slot which was never written is a deadlock.
ghost use Rattle.std.specs.Prelude.{◌≡◌, ◌≤◌};
ghost use Rattle.slots.specs.Packing.{packed_term, operator_word, term_word, plain_of, operator_at, word_term};

use crate::{Operator, Place, Term};

// A kind's number and the three numbers in one word.
fn packed(kind: u64, t: usize, u: usize, entries: usize) -> u64
    requires { kind ≤ 16 }
    ensures { result ≡ packed_term kind t u entries }
{
    let first = (t % 65536) as u64;
    let second = (u % 65536) as u64;
    let third = (entries % 65536) as u64;
    kind + 32 * first + 2097152 * second + 137438953472 * third
}

// The word of an operator with its operand: the operand, and how many entries the list has. The list's place is that of the term.
fn pack_operator(o: Operator, u: usize) -> u64
    ensures { result ≡ operator_word o u }
{
    match o {
        Operator::Block(p) => packed(12, 0, u, p.entries),
        Operator::Hide(p) => packed(13, 0, u, p.entries),
        Operator::Rename(p) => packed(14, 0, u, p.entries),
        Operator::Comm(p) => packed(15, 0, u, p.entries),
        Operator::Allow(p) => packed(16, 0, u, p.entries),
    }
}

// The word of a term.
pub fn pack(x: Term) -> u64
    ensures { result ≡ term_word x }
{
    match x {
        Term::Delta => 0,
        Term::Tau => 1,
        Term::Act(u) => packed(2, 0, u, 0),
        Term::Ref(u) => packed(3, 0, u, 0),
        Term::Sum(u) => packed(4, 0, u, 0),
        Term::Cond(u) => packed(5, 0, u, 0),
        Term::Choice(t, u) => packed(6, t, u, 0),
        Term::IfElse(t, u) => packed(7, t, u, 0),
        Term::Seq(t, u) => packed(8, t, u, 0),
        Term::Merge(t, u) => packed(9, t, u, 0),
        Term::LMerge(t, u) => packed(10, t, u, 0),
        Term::Sync(t, u) => packed(11, t, u, 0),
        Term::Wrap(o, u) => pack_operator(o, u),
    }
}

// The kinds without a list; the last number of a term is the only one where it has one.
pub fn plain(k: usize, t: usize, u: usize) -> Term
    ensures { result ≡ plain_of k t u }
{
    match k {
        1 => Term::Tau,
        2 => Term::Act(u),
        3 => Term::Ref(u),
        4 => Term::Sum(u),
        5 => Term::Cond(u),
        6 => Term::Choice(t, u),
        7 => Term::IfElse(t, u),
        8 => Term::Seq(t, u),
        9 => Term::Merge(t, u),
        10 => Term::LMerge(t, u),
        11 => Term::Sync(t, u),
        _ => Term::Delta,
    }
}

// The kinds with a list.
pub fn operator(k: usize, place: Place) -> Operator
    ensures { result ≡ operator_at k place }
{
    match k {
        12 => Operator::Block(place),
        13 => Operator::Hide(place),
        14 => Operator::Rename(place),
        15 => Operator::Comm(place),
        _ => Operator::Allow(place),
    }
}

// The n-th term, by its word: its kind and numbers, wherever they come from.
pub fn unpack(w: u64, n: usize) -> Term
    ensures { result ≡ word_term n w }
{
    let k = (w % 32) as usize;
    let t = (w / 32 % 65536) as usize;
    let u = (w / 2097152 % 65536) as usize;
    if k < 12 {
        return plain(k, t, u);
    }
    let entries = (w / 137438953472 % 65536) as usize;
    let place = Place { at: n, entries };
    let o = operator(k, place);
    Term::Wrap(o, u)
}

// The table of a description: what reading makes of a text, and what the sets are worked out from.
//
// A table is a lent slice of words, and its lists are another: docs/FORMAT.md has the layout, the constants below give it. Words that are
// not used may be anything. A name is at most eight bytes, packed in a word, the first byte lowest. A term is packed in a word as the
// crate `slots` says. The order is kept in words of its own.
#![tactic(auto)]

pub mod lists;

ghost use Rattle.std.specs.Prelude.{◌≡◌, min};
ghost use Rattle.table.specs.Encoded.{filled};
ghost use Rattle.table.specs.Holding.{entries_in, names_in, bodies_in, slots_in, root_in};

use crate::lists::part_of;
use areas::word_at;
use slots::Place;

pub const NAMES: usize = 24;

pub const EQUATIONS: usize = 16;

pub const TERMS: usize = 96;

// The words in which the numbers of names, equations and terms and the root stand.
pub const NAMED_AT: usize = 0;

pub const EQUATED_AT: usize = 1;

pub const COUNTED_AT: usize = 2;

pub const ROOT_AT: usize = 3;

// The first words of the names, the bodies and the terms.
pub const NAMES_AT: usize = 4;

pub const BODIES_AT: usize = 28;

pub const TERMS_AT: usize = 44;

// The words of a table, those of the list of a term or an order, and those of the lists of as many terms as a table has room for.
pub const TABLE_WORDS: usize = 140;

pub const LIST_WORDS: usize = 64;

pub const LISTS_WORDS: usize = 6144;

// The words of a rule: those of the label on its left, and the number of the name on its right.
pub const RULE_WORDS: usize = 3;

// What is asked for: all labels, or only those of a list. Not an `Option`: `None` would read as an order of nothing.
#[derive(Clone, Copy)]
pub enum Order {
    All,
    Only(Place),
}

// So many entries as one of the first words says, from a place on, and never more than there is room for.
fn entries_in(table: &[u64], count: usize, from: usize, most: usize) -> &[u64]
    ensures { result.now ≡ entries_in count from most table.now }
{
    let entries = word_at(table, count) as usize;
    part_of(table, from, entries.min(most))
}

// The names, packed.
pub fn names_of(table: &[u64]) -> &[u64]
    ensures { result.now ≡ names_in table.now }
{
    entries_in(table, NAMED_AT, NAMES_AT, NAMES)
}

// The numbers of the terms that are the bodies of equations.
pub fn bodies_of(table: &[u64]) -> &[u64]
    ensures { result.now ≡ bodies_in table.now }
{
    entries_in(table, EQUATED_AT, BODIES_AT, EQUATIONS)
}

// The packed terms.
pub fn slots_of(table: &[u64]) -> &[u64]
    ensures { result.now ≡ slots_in table.now }
{
    entries_in(table, COUNTED_AT, TERMS_AT, TERMS)
}

// The number of the term whose set is asked for.
pub fn root_of(table: &[u64]) -> usize
    ensures { result ≡ root_in table.now }
{
    word_at(table, ROOT_AT) as usize
}

// The names with 0 behind them, as an answer is printed with them.
pub fn names_by_value(table: &[u64]) -> [u64; NAMES]
    ensures { result ≡ filled 24 0 (names_in table.now) }
{
    let given = names_of(table);
    let mut names = [0u64; NAMES];
    names[..given.len()].copy_from_slice(given);
    names
}

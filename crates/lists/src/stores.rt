// The words of a list in its store.
ghost use Rattle.std.specs.Prelude.{◌+◌, ◌<◌, ◌^◌, ◌≡◌, [], ◌∷◌, set};
ghost use Rattle.meaning.specs.Labels.{lower_word, upper_word};
ghost use Rattle.labels.specs.Packing.{code};
ghost use Rattle.lists.specs.Lists.{word_count, words_said, set_from, weight_for, limit_for, Short};

use crate::ListKind;
use labels::packing::number_of;
use labels::{Label, WORD_END};

// A word of the store, as far as it reaches.
fn put(store: &mut [u64], at: usize, word: u64)
    ensures { store.new ≡ set store.old at word }
{
    if at < store.len() {
        store[at] = word;
    }
}

// How many words an entry has, what it weighs and how much a list may weigh: only rules and labels have a maximum.
#[derive(Clone, Copy)]
pub struct Shape {
    pub size: usize,
    pub weight: u64,
    pub limit: u64,
}

// How many words an entry of the kind takes in the store, how much it counts, and how much a list may count.
pub fn shape_of(kind: ListKind) -> Shape
    ensures { (result.size ≡ word_count kind) × (result.weight ≡ weight_for kind) × (result.limit ≡ limit_for kind) }
{
    match kind {
        ListKind::Names => Shape {
            size: 1,
            weight: 0,
            limit: 0,
        },
        ListKind::Pairs => Shape {
            size: 1,
            weight: 0,
            limit: 0,
        },
        ListKind::Rules => Shape {
            size: 3,
            weight: 1,
            limit: 8,
        },
        ListKind::Labels => Shape {
            size: 2,
            weight: 1,
            limit: 32,
        },
    }
}

// The two words of a label.
fn put_label(store: &mut [u64], at: usize, label: Label)
    requires { at + 2 < 2 ^ 64 }
    ensures { store.new ≡ set_from at (lower_word (code label) ∷ upper_word (code label) ∷ []) store.old }
{
    put(store, at, label.lower % WORD_END);
    put(store, at + 1, label.upper);
}

// An entry's words, by its two numbers. A pair is one word, its right side in the next five bits.
pub fn put_entry(kind: ListKind, store: &mut [u64], at: usize, first: Label, second: u64)
    requires { (at + 3 < 2 ^ 64) × Short kind (code first) second }
    ensures { store.new ≡ set_from at (words_said kind (code first) second) store.old }
{
    match kind {
        ListKind::Names => put(store, at, number_of(first)),
        ListKind::Pairs => put(store, at, number_of(first) + 32 * second),
        ListKind::Rules => {
            put_label(store, at, first);
            put(store, at + 2, second);
        }
        ListKind::Labels => put_label(store, at, first),
    }
}

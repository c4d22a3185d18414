// What is made of the names of a packed label: how often one occurs, lists of names hidden or blocked, renaming. Every function
// answers for every two words, also such as pack no label.
#![tactic(auto)]

ghost use Rattle.std.specs.Prelude.{◌≡◌, [], ◌∷◌, ◌+◌, ◌≤◌, ◌%◌, ◌^◌, get_or};
ghost use Rattle.meaning.specs.Labels.{number, count, label_of, clear, without, renamed, renamed_from};
ghost use Rattle.labels.specs.Packing.{code, packed};
ghost use Rattle.labels.specs.Bags.{bag};
ghost use Rattle.areas.specs.Pairs.{pairs_in};
ghost use Rattle.names.specs.Names.{Counted, targets};

use labels::bags::{joined, several};
use labels::packing::tau;
use labels::{Label, NAMES, WORD_END, WORD_NAMES};

// How often name n occurs. The upper word's last four bits stand for a name after the last, which no description has.
pub fn count(a: Label, n: u64) -> u64
    ensures { Counted (code a) n result }
{
    if n < WORD_NAMES {
        return (a.lower >> (5 * n)) % 32;
    }
    if n <= NAMES as u64 {
        return (a.upper >> (5 * (n - WORD_NAMES))) % 32;
    }
    0
}

// Whether none of the listed names occurs.
pub fn clear(a: Label, names: &[u64]) -> bool
    ensures { result ≡ clear names.now (bag (code a)) }
{
    for n in names {
        if count(a, *n) != 0 {
            return false;
        }
    }
    true
}

// The label without one name.
fn hide_one(a: Label, n: u64) -> Label
    ensures { result ≡ packed (number (without (n ∷ []) (bag (code a)))) }
{
    let lower = a.lower % WORD_END;
    if n < WORD_NAMES {
        return Label {
            lower: lower & (WORD_END - 1 - (31 << (5 * n))),
            upper: a.upper,
        };
    }
    if n < NAMES as u64 {
        return Label {
            lower,
            upper: a.upper & (u64::MAX - (31 << (5 * (n - WORD_NAMES)))),
        };
    }
    if n == NAMES as u64 {
        return Label {
            lower,
            upper: a.upper % WORD_END,
        };
    }
    Label {
        lower,
        upper: a.upper,
    }
}

// The label without the listed names.
pub fn hide(a: Label, names: &[u64]) -> Label
    ensures { result ≡ packed (number (without names.now (bag (code a)))) }
{
    let mut left = Label {
        lower: a.lower % WORD_END,
        upper: a.upper,
    };
    for n in names {
        left = hide_one(left, *n);
    }
    left
}

// The map of all names to names: each goes to itself, and then where the pairs send it. A name that two pairs list goes
// where the first sends it, so the last is written first.
pub fn renaming(pairs: &[u64]) -> [u64; 24]
    ensures { result ≡ targets (pairs_in pairs.now) }
{
    let mut to = [
        0u64, 1, 2, 3, 4, 5, 6, 7, 8, 9, 10, 11, 12, 13, 14, 15, 16, 17, 18, 19, 20, 21, 22, 23,
    ];
    for pair in pairs.iter().rev() {
        let left = (*pair % 32) as usize;
        if left < NAMES {
            to[left] = *pair / 32;
        }
    }
    to
}

// Every name of a word, whose names are numbered from `first` on, goes where the map sends it; names past the last that occurs need no
// look.
fn rename_word(word: u64, first: usize, to: &[u64; 24]) -> Label
    requires { first + 12 ≤ 24 }
    ensures { result ≡ packed (number (renamed_from first 24 (λ n. get_or to.now n 0) (label_of 12 word)) % 2 ^ 124) }
{
    let mut rest = word;
    let mut made = tau();
    for i in first..first + 12 {
        if rest == 0 {
            return made;
        }
        made = joined(made, several(to[i], rest % 32));
        rest /= 32;
    }
    made
}

// Every name goes where the map sends it, all at once. What is above the numbers that two words hold is lost; no label has so much.
pub fn rename(a: Label, to: [u64; 24]) -> Label
    ensures { result ≡ packed (number (renamed 24 (λ n. get_or to n 0) (label_of 24 (code a))) % 2 ^ 124) }
{
    let lower = rename_word(a.lower, 0, &to);
    if a.upper == 0 {
        return lower;
    }
    joined(lower, rename_word(a.upper, 12, &to))
}

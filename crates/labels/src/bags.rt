// Labels as bags of actions: size, sum, sub-bag, difference, the label of actions of one name.
ghost use Rattle.std.specs.Prelude.{◌≡◌, ◌+◌, ◌-◌, ◌%◌, ◌^◌, ◌<◌};
ghost use Rattle.meaning.specs.Labels.{number, label_of, inside, several, single};
ghost use Rattle.labels.specs.Packing.{code, packed};
ghost use Rattle.labels.specs.Bags.{bag, size_of, sum_of, as_much};

use crate::{Label, MOST_ACTIONS, NAMES, WORD_END, WORD_NAMES};

// How many actions a label of at most 31 has. 32 is 1 modulo 31, so that its number, its words together and its size leave the same
// remainder.
pub fn size(a: Label) -> u64
    ensures { result ≡ size_of (code a) }
{
    let total = a.lower % WORD_END + a.upper % WORD_END + a.upper / WORD_END;
    if total == 0 {
        return 0;
    }
    let rest = total % MOST_ACTIONS;
    if rest == 0 { MOST_ACTIONS } else { rest }
}

// Two labels together, where it is known that they have at most 31 actions; for others it is the sum of the numbers, as far as
// it fits. Only such a sum carries from one word to the other.
pub fn joined(a: Label, b: Label) -> Label
    ensures { result ≡ packed ((code a + code b) % 2 ^ 124) }
{
    let lower = a.lower % WORD_END + b.lower % WORD_END;
    let upper = a.upper.wrapping_add(b.upper);
    Label {
        lower: lower % WORD_END,
        upper: upper.wrapping_add(lower / WORD_END),
    }
}

// The sum of two labels; none where it has over 31 actions.
pub fn sum(a: Label, b: Label) -> Option<Label>
    ensures { result ≡ sum_of (code a) (code b) }
{
    if MOST_ACTIONS < size(a) + size(b) {
        None
    } else {
        Some(joined(a, b))
    }
}

// Whether of each name that is in a third word the second word has no fewer than the first: the digits of all, from the first name on,
// until the third has none left.
fn word_has(named: u64, small: u64, large: u64) -> bool
    ensures { result ≡ as_much (label_of 13 named) (label_of 13 small) (label_of 13 large) }
{
    let mut names = named;
    let mut a = small;
    let mut b = large;
    while names != 0 {
        if names % 32 != 0 && b % 32 < a % 32 {
            return false;
        }
        names /= 32;
        a /= 32;
        b /= 32;
    }
    true
}

// Whether b has no fewer than a of each name that is in a third label.
pub fn as_much(names: Label, a: Label, b: Label) -> bool
    ensures { result ≡ as_much (bag (code names)) (bag (code a)) (bag (code b)) }
{
    if !word_has(
        names.lower % WORD_END,
        a.lower % WORD_END,
        b.lower % WORD_END,
    ) {
        return false;
    }
    word_has(names.upper, a.upper, b.upper)
}

// The bits that lend to the names before them when those have too little: the lowest of the count behind each of the first twelve names.
const LENT: u64 = 1190112520884487200;

// Whether no count of a word has to borrow of the next when another word is taken from it.
fn lends_nothing(small: u64, large: u64) -> bool
    ensures { result ≡ inside (label_of 13 small) (label_of 13 large) }
{
    if large < small {
        return false;
    }
    (small ^ large ^ (large - small)) & LENT == 0
}

// Whether a lies inside b.
pub fn inside(a: Label, b: Label) -> bool
    ensures { result ≡ inside (bag (code a)) (bag (code b)) }
{
    lends_nothing(a.lower % WORD_END, b.lower % WORD_END) && lends_nothing(a.upper, b.upper)
}

// a without the actions of b, for a b that lies inside a; for another it is the difference of the numbers, not below 0. Only where b does
// not lie inside a word borrows of the other.
pub fn difference(a: Label, b: Label) -> Label
    ensures { result ≡ packed (code a - code b) }
{
    let large = a.lower % WORD_END;
    let small = b.lower % WORD_END;
    if a.upper < b.upper {
        return Label { lower: 0, upper: 0 };
    }
    let upper = a.upper - b.upper;
    if small <= large {
        return Label {
            lower: large - small,
            upper,
        };
    }
    if upper == 0 {
        return Label { lower: 0, upper: 0 };
    }
    Label {
        lower: WORD_END - small + large,
        upper: upper - 1,
    }
}

// Some actions of one name, at most 31 of them; a name past the last gives the empty label.
pub fn several(n: u64, times: u64) -> Label
    ensures { result ≡ packed (number (several 24 n (times % 32))) }
{
    let few = times % 32;
    if n < WORD_NAMES {
        return Label {
            lower: few << (5 * n),
            upper: 0,
        };
    }
    if n < NAMES as u64 {
        return Label {
            lower: 0,
            upper: few << (5 * (n - WORD_NAMES)),
        };
    }
    Label { lower: 0, upper: 0 }
}

// The label of one action; a name past the last gives the empty one.
pub fn single(n: u64) -> Label
    ensures { result ≡ packed (number (single 24 n)) }
{
    several(n, 1)
}

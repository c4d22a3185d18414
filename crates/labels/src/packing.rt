// The empty label, and the order in which labels come: the upper words decide, and where they are the same the lower ones.
ghost use Rattle.std.specs.Prelude.{◌≡◌, ◌%◌, ◌^◌, ◌==◌, nat_lt};
ghost use Rattle.labels.specs.Packing.{code, packed};

use crate::{Label, WORD_END};

// The empty label.
pub fn tau() -> Label
    ensures { result ≡ packed 0 }
{
    Label { lower: 0, upper: 0 }
}

// Whether a comes before b in the order of labels.
pub fn below(a: Label, b: Label) -> bool
    ensures { result ≡ nat_lt (code a) (code b) }
{
    if a.upper == b.upper {
        a.lower % WORD_END < b.lower % WORD_END
    } else {
        a.upper < b.upper
    }
}

// Whether a and b are the same label.
pub fn same(a: Label, b: Label) -> bool
    ensures { result ≡ (code a == code b) }
{
    a.lower % WORD_END == b.lower % WORD_END && a.upper == b.upper
}

// The label of a number that a word holds.
pub fn label_of(number: u64) -> Label
    ensures { result ≡ packed number }
{
    Label {
        lower: number % WORD_END,
        upper: number / WORD_END,
    }
}

// The number of a label, as far as a word holds it.
pub fn number_of(a: Label) -> u64
    ensures { result ≡ code a % 2 ^ 64 }
{
    a.lower % WORD_END + WORD_END * (a.upper % 16)
}

// A prime number, and what 2 to the power 60 leaves by it.
const PRIME: u64 = 1000003;

const END_REST: u64 = 709420;

// What the number of a label leaves by a prime number: labels that differ, in whichever word, mostly differ in it.
pub fn residue(a: Label) -> u64
    ensures { result ≡ code a % 1000003 }
{
    let low = a.lower % WORD_END % PRIME;
    if a.upper == 0 {
        return low;
    }
    (low + END_REST * (a.upper % PRIME)) % PRIME
}

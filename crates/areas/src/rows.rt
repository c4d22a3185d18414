// Labels in a row of lent words, two words each, the lower first. A caller numbers labels, not words, and so knows nothing of how many
// words a label takes. A last word that has none beside it is no label's: it is not looked at.
ghost use Rattle.std.specs.Prelude.{◌≡◌, ◌-◌, ◌≤◌, eqb, ◌++◌, length, get_or, set, take};
ghost use Rattle.labels.specs.Packing.{code, packed};
ghost use Rattle.areas.specs.Rows.{held, moved_up};

use labels::packing::same;
use labels::{LABEL_WORDS, Label, WORD_END};

// How many labels the words hold.
pub fn labels_in(words: &[u64]) -> usize
    ensures { result ≡ length (held words.now) }
{
    words.len() / LABEL_WORDS
}

// The i-th label; past the end it is the empty one.
pub fn read_label(words: &[u64], i: usize) -> Label
    ensures { result ≡ packed (get_or (held words.now) i 0) }
{
    if i < words.len() / LABEL_WORDS {
        let at = LABEL_WORDS * i;
        Label {
            lower: words[at] % WORD_END,
            upper: words[at + 1],
        }
    } else {
        Label { lower: 0, upper: 0 }
    }
}

// Whether the i-th label is the given one; past the end stands the empty one.
pub fn label_is(words: &[u64], i: usize, label: Label) -> bool
    ensures { result ≡ eqb (get_or (held words.now) i 0) (code label) }
{
    same(read_label(words, i), label)
}

// The i-th label is written; past the end nothing is.
pub fn write_label(words: &mut [u64], i: usize, label: Label)
    ensures { held words.new ≡ set (held words.old) i (code label) }
{
    if i < words.len() / LABEL_WORDS {
        let at = LABEL_WORDS * i;
        words[at] = label.lower % WORD_END;
        words[at + 1] = label.upper;
    }
}

// All words move two places up, over the last two. They are copied from the start of the slice, so that the compiler makes one move of it.
fn shift_up(words: &mut [u64])
    requires { 2 ≤ length words.old }
    ensures { words.new ≡ take 2 words.old ++ take (length words.old - 2) words.old }
{
    let end = words.len() - LABEL_WORDS;
    words.copy_within(..end, LABEL_WORDS);
}

// The labels from one place up to another move one place up, over the label at the second, if that is a place of the slice.
pub fn move_up(words: &mut [u64], from: usize, to: usize)
    ensures { held words.new ≡ moved_up from to (held words.old) }
{
    if from < to && to < words.len() / LABEL_WORDS {
        let end = LABEL_WORDS * to + LABEL_WORDS;
        shift_up(&mut words[LABEL_WORDS * from..end]);
    }
}

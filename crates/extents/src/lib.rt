// Where rows of labels stand in lent words: a row of numbers keeps two for each, where it begins and where it ends. Places are
// counted in labels.
#![tactic(auto)]

ghost use Rattle.std.specs.Prelude.{◌≡◌, get_or, set};
ghost use Rattle.areas.specs.Rows.{held};
ghost use Rattle.extents.specs.Extents.{part_at, with_part, words_in, is_empty, at_start};

use areas::rows::labels_in;
use labels::LABEL_WORDS;
use parts::{MOST_LABELS, Part, Target};

// The i-th number; past the end it is 0.
fn number_at(row: &[usize], i: usize) -> usize
    ensures { result ≡ get_or row.now i 0 }
{
    row.get(i).copied().unwrap_or(0)
}

// Where the i-th of them stands; past the end it is empty.
pub fn part_at(row: &[usize], i: usize) -> Part
    ensures { result ≡ part_at row.now i }
{
    if i < row.len() / 2 {
        let at = 2 * i;
        return Part {
            from: row[at],
            to: row[at + 1],
        };
    }
    if row.len() <= i {
        return Part { from: 0, to: 0 };
    }
    Part {
        from: number_at(row, 2 * i),
        to: number_at(row, 2 * i + 1),
    }
}

// Another number in the i-th place; past the end there is none.
fn set_number(row: &mut [usize], i: usize, number: usize)
    ensures { row.new ≡ set row.old i number }
{
    if i < row.len() {
        row[i] = number;
    }
}

// It is entered where the i-th of them stands; past the end nothing is.
pub fn set_part(row: &mut [usize], i: usize, part: Part)
    ensures { row.new ≡ with_part row.old i part }
{
    if i < row.len() / 2 {
        let at = 2 * i;
        row[at] = part.from;
        row[at + 1] = part.to;
        return;
    }
    if row.len() <= i {
        return;
    }
    set_number(row, 2 * i, part.from);
    set_number(row, 2 * i + 1, part.to);
}

// Whether a part has no label.
pub fn is_empty(part: Part) -> bool
    ensures { result ≡ is_empty part }
{
    part.to <= part.from
}

// The labels of a part, as far as it lies in the words.
pub fn labels_of(words: &[u64], part: Part) -> &[u64]
    ensures { held result.now ≡ words_in part (held words.now) }
{
    let end = labels_in(words);
    if end <= part.from {
        return &words[..0];
    }
    if part.to <= part.from {
        return &words[..0];
    }
    if part.to < end {
        return &words[LABEL_WORDS * part.from..LABEL_WORDS * part.to];
    }
    &words[LABEL_WORDS * part.from..]
}

// A set that stands at the start of the words that it is built in, and may have 1,024 labels.
pub fn at_start(len: usize) -> Target
    ensures { result ≡ at_start len }
{
    Target {
        at: 0,
        len,
        most: MOST_LABELS,
    }
}

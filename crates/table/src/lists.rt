// The lists of terms and orders.
ghost use Rattle.std.specs.Prelude.{◌≡◌, ◌*◌, ◌≤◌, take, drop};
ghost use Rattle.table.specs.Decoded.{words_at};

use crate::{LIST_WORDS, RULE_WORDS};
use labels::LABEL_WORDS;
use slots::Place;

// So many words from a place on, as far as they reach.
pub(crate) fn part_of(words: &[u64], at: usize, count: usize) -> &[u64]
    ensures { result.now ≡ take count (drop at words.now) }
{
    if words.len() <= at {
        return &words[..0];
    }
    if count <= words.len() - at {
        let end = at + count;
        return &words[at..end];
    }
    &words[at..]
}

// So many words of a list, by its number. A list that would start past the end is empty, and its place is not worked out: the product
// might not fit.
fn list_part(lists: &[u64], number: usize, count: usize) -> &[u64]
    ensures { result.now ≡ take count (drop (64 * number) lists.now) }
{
    if lists.len() / LIST_WORDS < number {
        return &lists[..0];
    }
    part_of(lists, LIST_WORDS * number, count)
}

// A list whose entries are names or pairs: a word each.
pub fn words_of(lists: &[u64], place: Place) -> &[u64]
    ensures { result.now ≡ words_at lists.now place 1 }
{
    list_part(lists, place.at, place.entries)
}

// A list whose entries have so many words each, at most three. A list that could not lie in any words takes all there is.
fn sized_words_of(lists: &[u64], place: Place, size: usize) -> &[u64]
    requires { (1 ≤ size) × (size ≤ 3) }
    ensures { result.now ≡ words_at lists.now place size }
{
    let entries = place.entries;
    if entries <= lists.len() {
        return list_part(lists, place.at, entries * size);
    }
    list_part(lists, place.at, lists.len())
}

// A list of labels: two words each. It and the next are one function by two names, so that no caller says how many words an entry has.
pub fn label_words_of(lists: &[u64], place: Place) -> &[u64]
    ensures { result.now ≡ words_at lists.now place 2 }
{
    sized_words_of(lists, place, LABEL_WORDS)
}

// A list of rules: three words each.
pub fn rule_words_of(lists: &[u64], place: Place) -> &[u64]
    ensures { result.now ≡ words_at lists.now place 3 }
{
    sized_words_of(lists, place, RULE_WORDS)
}

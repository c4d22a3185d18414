// Where parts lie in the slice, and how much room there is.
ghost use Rattle.std.specs.Prelude.{◌≡◌, min, length};
ghost use Rattle.areas.specs.Rows.{held};
ghost use Rattle.parts.specs.Parts.{room_at, reach_of};

use crate::MOST_LABELS;
use areas::rows::labels_in;

// How many labels a set at a place may hold.
pub fn room(words: &[u64], at: usize, most: usize) -> usize
    ensures { result ≡ room_at at most (length (held words.now)) }
{
    let free = labels_in(words).saturating_sub(at);
    most.min(MOST_LABELS).min(free)
}

// How many of `len` labels from a place on lie in the slice.
pub fn reach(words: &[u64], at: usize, len: usize) -> usize
    ensures { result ≡ reach_of at len (length (held words.now)) }
{
    let there = labels_in(words).saturating_sub(at);
    len.min(there)
}

// The end of a part as far as it lies in the slice and before a place.
pub fn end_before(words: &[u64], to: usize, at: usize) -> usize
    ensures { result ≡ min (min to at) (length (held words.now)) }
{
    to.min(at).min(labels_in(words))
}

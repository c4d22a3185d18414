// A set kept alone in the work area: at its start, with 0 behind it.
#![tactic(auto)]

ghost use Rattle.std.specs.Prelude.{◌≡◌, ◌+◌, ◌≤◌, length, take, drop};
ghost use Rattle.meaning.specs.Labels.{in_words};
ghost use Rattle.areas.specs.Areas.{put};
ghost use Rattle.areas.specs.Rows.{held};
ghost use Rattle.keeping.specs.Settling.{Settled};

use areas::clear;
use areas::rows::read_label;
use labels::LABEL_WORDS;
use parts::Part;

// The words that are used of the work area, and how many labels they hold.
pub const WORK_WORDS: usize = 8192;

const WORK_LABELS: usize = 4096;

// Labels from a place on are copied to the start, without the bits of a word that are no label's: `copy_within` would keep them. None is
// read after it was written, since each goes to where an earlier one stood.
fn bring(work: &mut [u64], from: usize, count: usize)
    requires { from + count ≤ length (held work.old) }
    ensures { work.new
        ≡ put (in_words (take count (drop from (held work.old)))) work.old }
{
    for i in 0..count {
        let label = read_label(work, from + i);
        let at = LABEL_WORDS * i;
        work[at] = label.lower;
        work[at + 1] = label.upper;
    }
}

// A set is brought to the start, and every other word that is used is set to 0; how many labels the set has is returned. Nothing
// changes in an area that is too short, or for a set that ends past what is used.
pub fn settle(work: &mut [u64], set: Part) -> usize
    ensures { Settled set work.old work.new result }
{
    let from = set.from;
    let to = set.to;
    if work.len() < WORK_WORDS {
        return 0;
    }
    if WORK_LABELS < to {
        return 0;
    }
    if to <= from {
        clear(work, WORK_WORDS);
        return 0;
    }
    let count = to - from;
    bring(work, from, count);
    let end = LABEL_WORDS * count;
    clear(&mut work[end..], WORK_WORDS - end);
    count
}

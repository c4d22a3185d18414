// The new labels of what is given for a term are kept: they go to the end of the log, and into the set of the term.
ghost use Rattle.areas.specs.Rows.{held};
ghost use Rattle.advances.specs.Keeping.{Appended, TakenIn, KeptNew};

use areas::rows::labels_in;
use extents::{is_empty, labels_of, part_at, set_part};
use layout::grow;
use logs::log_new;
use parts::Part;
use sets::TooLarge;

// Those of the labels that are given which a set does not have are written behind the end of the log. Where it then ends is
// returned.
fn append_new(known: &[u64], made: &[u64], log: &mut [u64], end: usize) -> Result<usize, TooLarge>
    ensures { Appended (held known.now) (held made.now) end (held log.old) (held log.new) result }
{
    if labels_in(log) < end {
        return Err(TooLarge);
    }
    let count = log_new(known, made, log, end)?;
    Ok(end + count)
}

// What stands in a part at the end of the log is what is new for the n-th of so many terms, and goes into its set.
fn take_in(
    terms: usize,
    n: usize,
    part: Part,
    log: &[u64],
    sets: &mut [usize],
    news: &mut [usize],
    work: &mut [u64],
)
    ensures { TakenIn terms n part (held log.now) sets.old news.old (held work.old)
        sets.new news.new (held work.new) }
{
    set_part(news, n, part);
    if !is_empty(part) {
        grow(work, sets, terms, n, part.to, labels_of(log, part));
    }
}

// Those of the labels that are given which the set of the n-th of so many terms does not have go to the end of the log, and into the
// set. Where the log then ends is returned.
pub fn keep_new(
    terms: usize,
    n: usize,
    made: &[u64],
    sets: &mut [usize],
    news: &mut [usize],
    work: &mut [u64],
    log: &mut [u64],
    end: usize,
) -> Result<usize, TooLarge>
    ensures { KeptNew terms n end (held made.now)
        sets.old news.old (held work.old) (held log.old)
        sets.new news.new (held work.new) (held log.new) result }
{
    let known = labels_of(work, part_at(sets, n));
    let to = append_new(known, made, log, end)?;
    take_in(terms, n, Part { from: end, to }, log, sets, news, work);
    Ok(to)
}

// The rounds of a table in areas that are lent, be they small or large.
ghost use Rattle.std.specs.Prelude.{◌≡◌, ◌++◌, ◌≤◌, length, take, drop};
ghost use Rattle.areas.specs.Rows.{held};
ghost use Rattle.syncs.specs.Merging.{merged_to};
ghost use Rattle.stability.specs.Running.{Ran};

use crate::TOTAL_LABELS;
use crate::stages::turn_on;
use areas::rows::labels_in;
use sets::TooLarge;
use syncs::merge_wholes;
use table::{bodies_of, slots_of};

// The terms, with a merge in place of every sync of whole processes, at the start of other words.
fn copy_merged(terms: &[u64], slots: &mut [u64])
    requires { length terms.now ≤ length slots.old }
    ensures { take (length terms.now) slots.new ≡ merged_to (length terms.now) terms.now }
{
    let copied = &mut slots[..terms.len()];
    copied.copy_from_slice(terms);
    merge_wholes(copied);
}

// The rounds of the description that a table and its lists hold. How many labels all sets may have together is how many the log holds. Where
// the sets stand after the last round is left in `sets`, which is to be 0 before the first, as `news` is. That the areas are too short
// is answered as if a limit were passed: a caller whose areas may be too short asks again with longer ones.
pub fn run(
    table: &[u64],
    lists: &[u64],
    slots: &mut [u64],
    sets: &mut [usize],
    news: &mut [usize],
    work: &mut [u64],
    log: &mut [u64],
    out: &mut [u64],
) -> Result<usize, TooLarge>
    ensures { Ran table.now lists.now slots.old
        sets.old news.old (held work.old) (held log.old) (held out.old) slots.new
        sets.new news.new (held work.new) (held log.new) (held out.new) result }
{
    let terms = slots_of(table);
    let count = terms.len();
    if slots.len() < count {
        return Err(TooLarge);
    }
    if TOTAL_LABELS < labels_in(log) {
        return Err(TooLarge);
    }
    copy_merged(terms, slots);
    turn_on(
        &slots[..count],
        lists,
        bodies_of(table),
        sets,
        news,
        work,
        log,
        out,
    )
}

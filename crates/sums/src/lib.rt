// Every sum of a label of one row and a label of another, put into a set that stands at the start of words of its own. Most sums of two
// long rows come several times: those that the set is known to have are passed over.
#![tactic(auto)]

ghost use Rattle.std.specs.Prelude.{◌≡◌, ◌+◌, ◌-◌, ◌≤◌, true};
ghost use Rattle.areas.specs.Rows.{held};
ghost use Rattle.labels.specs.Bags.{size_of, sum_of};
ghost use Rattle.labels.specs.Packing.{code};
ghost use Rattle.parts.specs.Parts.{set_at};
ghost use Rattle.extents.specs.Extents.{at_start};
ghost use Rattle.sets.specs.Building.{GrownAt, enter, summed};
ghost use Rattle.sums.specs.Seen.{Kept, GrownKept};
ghost use Rattle.sums.specs.Sums.{row_of, sums_of, NoLarger};

use crate::few::put_each;
use crate::seen::{SLOTS_WORDS, enter_once};
use areas::rows::{labels_in, read_label};
use labels::bags::{joined, size, sum};
use labels::{Label, MOST_ACTIONS};
use parts::placing::reach;
use sets::TooLarge;
use sets::ascending::ascends;

mod few;
mod seen;

// As many sums as this are few, and of a row as short as this few come twice: a table would cost more than it spares.
const FEW: usize = 511;

const SHORT: usize = 4;

// A sum goes into the set, unless it has over 31 actions.
fn take_sum(
    seen: &mut [u64],
    out: &mut [u64],
    len: usize,
    res: Option<Label>,
) -> Result<usize, TooLarge>
    requires { Kept (held seen.old) (set_at 0 len (held out.old)) }
    ensures { GrownKept len (λ room. summed (enter room) res)
        (held out.old) (held out.new) (held seen.new) result }
{
    let total = res.ok_or(TooLarge)?;
    enter_once(seen, out, len, total)
}

// The sum of two labels. Where it is known that they have at most 31 actions together these are not counted once more.
fn sum_of(fits: bool, a: Label, b: Label) -> Option<Label>
    requires { fits ≡ true → size_of (code a) + size_of (code b) ≤ 31 }
    ensures { result ≡ sum_of (code a) (code b) }
{
    if fits {
        return Some(joined(a, b));
    }
    sum(a, b)
}

// No label of a row has more actions than this.
fn largest(row: &[u64]) -> u64
    ensures { (result ≤ 31) × NoLarger result (held row.now) }
{
    let mut most = 0;
    let end = labels_in(row);
    for i in 0..end {
        most = most.max(size(read_label(row, i)));
    }
    most
}

// The sums of one label and those of a row, and whether it is known of all that they have at most 31 actions.
fn add_row(
    label: Label,
    by: &[u64],
    fits: bool,
    seen: &mut [u64],
    out: &mut [u64],
    len: usize,
) -> Result<usize, TooLarge>
    requires { Kept (held seen.old) (set_at 0 len (held out.old)) × (fits ≡ true → NoLarger (31 - size_of (code label)) (held by.now)) }
    ensures { GrownKept len (λ room. row_of room (held by.now) (code label))
        (held out.old) (held out.new) (held seen.new) result }
{
    let mut count = reach(out, 0, len);
    let end = labels_in(by);
    for i in 0..end {
        let result = sum_of(fits, label, read_label(by, i));
        count = take_sum(seen, out, count, result)?;
    }
    Ok(count)
}

// The sums of two rows, with a table that is kept from one label of the first row to the next. No label of the second has more actions
// than a number says.
fn add_each(
    a: &[u64],
    b: &[u64],
    most: u64,
    seen: &mut [u64],
    out: &mut [u64],
    len: usize,
) -> Result<usize, TooLarge>
    requires { Kept (held seen.old) (set_at 0 len (held out.old)) × (most ≤ 31) × NoLarger most (held b.now) }
    ensures { GrownAt (at_start len) (λ room. sums_of room (held a.now) (held b.now))
        (held out.old) (held out.new) result }
{
    let mut count = reach(out, 0, len);
    let end = labels_in(a);
    for i in 0..end {
        let label = read_label(a, i);
        let fits = size(label) + most <= MOST_ACTIONS;
        count = add_row(label, b, fits, seen, out, count)?;
    }
    Ok(count)
}

// The same with a table whose slots are still empty, if the set ascends: one with no slots keeps nothing.
fn add_many(a: &[u64], b: &[u64], out: &mut [u64], len: usize) -> Result<usize, TooLarge>
    ensures { GrownAt (at_start len) (λ room. sums_of room (held a.now) (held b.now))
        (held out.old) (held out.new) result }
{
    let mut seen = [0u64; SLOTS_WORDS];
    if ascends(out, 0, len) {
        return add_each(a, b, largest(b), &mut seen, out, len);
    }
    add_each(a, b, largest(b), &mut seen[..0], out, len)
}

// Whether two rows have more than a few sums. It decides on the time that is taken and on nothing else.
fn many_sums(a: &[u64], b: &[u64]) -> bool {
    let rows = labels_in(a);
    if rows <= SHORT || labels_in(b) <= SHORT {
        return false;
    }
    FEW / rows < labels_in(b)
}

// The sums of two rows, with a table if they are many. As two ways lead to the table, the compiler keeps it in a frame of its own: in the
// frame of this function its pages would be touched by every call. The rows are lent anew: as they came they would be copied whole.
pub fn add_sums(a: &[u64], b: &[u64], out: &mut [u64], len: usize) -> Result<usize, TooLarge>
    ensures { GrownAt (at_start len) (λ room. sums_of room (held a.now) (held b.now))
        (held out.old) (held out.new) result }
{
    if many_sums(a, b) {
        if len == 0 {
            return add_many(&a[0..], &b[0..], &mut out[0..], 0);
        }
        return add_many(&a[0..], &b[0..], &mut out[0..], len);
    }
    put_each(a, b, out, len)
}

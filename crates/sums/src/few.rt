// The sums of two rows of which one is short, put into a set one after the other.
ghost use Rattle.areas.specs.Rows.{held};
ghost use Rattle.labels.specs.Packing.{code};
ghost use Rattle.extents.specs.Extents.{at_start};
ghost use Rattle.sets.specs.Building.{GrownAt, enter, summed};
ghost use Rattle.sums.specs.Sums.{row_of, sums_of};

use areas::rows::{labels_in, read_label};
use extents::at_start;
use labels::Label;
use labels::bags::sum;
use parts::placing::reach;
use sets::TooLarge;
use sets::inserting::enter;

// A sum goes into the set, unless it has over 31 actions.
fn put_sum(out: &mut [u64], len: usize, res: Option<Label>) -> Result<usize, TooLarge>
    ensures { GrownAt (at_start len) (λ room. summed (enter room) res) (held out.old) (held out.new) result }
{
    let total = res.ok_or(TooLarge)?;
    enter(out, at_start(len), total)
}

// The sums of one label and those of a row.
fn put_row(label: Label, by: &[u64], out: &mut [u64], len: usize) -> Result<usize, TooLarge>
    ensures { GrownAt (at_start len) (λ room. row_of room (held by.now) (code label))
        (held out.old) (held out.new) result }
{
    let mut count = reach(out, 0, len);
    let end = labels_in(by);
    for i in 0..end {
        let result = sum(label, read_label(by, i));
        count = put_sum(out, count, result)?;
    }
    Ok(count)
}

// The sums of two rows.
pub(crate) fn put_each(a: &[u64], b: &[u64], out: &mut [u64], len: usize) -> Result<usize, TooLarge>
    ensures { GrownAt (at_start len) (λ room. sums_of room (held a.now) (held b.now))
        (held out.old) (held out.new) result }
{
    let mut count = reach(out, 0, len);
    let end = labels_in(a);
    for i in 0..end {
        let label = read_label(a, i);
        count = put_row(label, b, out, count)?;
    }
    Ok(count)
}

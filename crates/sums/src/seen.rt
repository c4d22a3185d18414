// Labels put into a set, with a table of those that it is known to have: they are passed over. The table is a lent row of labels, each in
// the slot that its number says; it forgets one when another takes its slot. An empty slot holds the empty label, which is never kept.
ghost use Rattle.std.specs.Prelude.{◌≡◌};
ghost use Rattle.areas.specs.Rows.{held};
ghost use Rattle.labels.specs.Packing.{code};
ghost use Rattle.parts.specs.Parts.{set_at};
ghost use Rattle.sets.specs.Building.{enter};
ghost use Rattle.sums.specs.Seen.{is_kept, Kept, GrownKept};

use areas::rows::{label_is, write_label};
use extents::at_start;
use labels::Label;
use labels::packing::{same, tau};
use parts::placing::reach;
use sets::TooLarge;
use sets::inserting::enter;

// How many slots a table has: a prime number by which nearly all labels over a few names have slots of their own. And its words.
const SLOTS: usize = 3709;

pub const SLOTS_WORDS: usize = 7418;

// The slot of a label: by its number while that takes one word, and else by a sum in which the upper word tells. It decides on the time
// that is taken and on nothing else.
fn slot(label: Label) -> usize {
    let upper = label.upper.wrapping_add(label.upper << 17);
    label.lower.wrapping_add(upper) as usize % SLOTS
}

// Whether a slot keeps a label; a slot past the end of the table keeps none.
fn is_kept(seen: &[u64], at: usize, label: Label) -> bool
    ensures { result ≡ is_kept (held seen.now) at (code label) }
{
    if same(label, tau()) {
        return false;
    }
    label_is(seen, at, label)
}

// Puts a label into the set at the start of the words, unless the table keeps it, and keeps it then.
pub fn enter_once(
    seen: &mut [u64],
    out: &mut [u64],
    len: usize,
    label: Label,
) -> Result<usize, TooLarge>
    requires { Kept (held seen.old) (set_at 0 len (held out.old)) }
    ensures { GrownKept len (λ room. enter room (code label))
        (held out.old) (held out.new) (held seen.new) result }
{
    let at = slot(label);
    if is_kept(seen, at, label) {
        return Ok(reach(out, 0, len));
    }
    let count = enter(out, at_start(len), label)?;
    write_label(seen, at, label);
    Ok(count)
}

// The log: labels that are new are written one behind the other, each once.
#![tactic(auto)]

ghost use Rattle.std.specs.Prelude.{◌≡◌};
ghost use Rattle.areas.specs.Rows.{held};
ghost use Rattle.labels.specs.Packing.{code};
ghost use Rattle.sets.specs.Inserting.{present};
ghost use Rattle.logs.specs.Logs.{Logs, space_for};

use areas::rows::{labels_in, read_label, write_label};
use labels::Label;
use parts::placing::room;
use parts::{MOST_LABELS, Part};
use sets::TooLarge;
use sets::inserting::contains;

// Whether a set has a label.
fn is_known(known: &[u64], label: Label) -> bool
    ensures { result ≡ present (held known.now) (code label) }
{
    let end = labels_in(known);
    let all = Part { from: 0, to: end };
    contains(known, all, end, label)
}

// How many new labels of a set there may be from a place of the log on.
fn space(known: &[u64], log: &[u64], at: usize) -> usize
    ensures { result ≡ space_for (held known.now) at (held log.now) }
{
    room(log, at, MOST_LABELS.saturating_sub(labels_in(known)))
}

// Those labels of a row that a set does not have are written from a place on, until there is no room for the next.
pub fn log_new(known: &[u64], made: &[u64], log: &mut [u64], at: usize) -> Result<usize, TooLarge>
    ensures { Logs (held known.now) (held made.now) at (held log.old) (held log.new) result }
{
    let most = space(known, log, at);
    let end = labels_in(made);
    let mut len = 0;
    for i in 0..end {
        let label = read_label(made, i);
        if !is_known(known, label) {
            if most <= len {
                return Err(TooLarge);
            }
            write_label(log, at + len, label);
            len += 1;
        }
    }
    Ok(len)
}

// The labels of a row with all that comes of them by rules.
ghost use Rattle.std.specs.Prelude.{◌≤◌, length};
ghost use Rattle.areas.specs.Rows.{held};
ghost use Rattle.exchanges.specs.Closing.{Closes};
ghost use Rattle.exchanges.specs.Following.{Walking};

use crate::following::put;
use areas::rows::{labels_in, read_label};
use memory::MEMORY_WORDS;
use ordering::many_choices;
use parts::placing::reach;
use rules::State;
use sets::TooLarge;
use sets::ascending::ascends;

// Each label in turn, with a memory that is kept from one to the next.
fn put_each(
    labels: &[u64],
    operand: &[u64],
    rules: &[u64],
    states: &mut [u64],
    out: &mut [u64],
    len: usize,
) -> Result<usize, TooLarge>
    requires { Walking len (held operand.now) (held rules.now) (held out.old) (held states.old) }
    ensures { Closes len (held labels.now) (held operand.now) (held rules.now)
        (held out.old) (held out.new) result }
{
    let mut count = len;
    let end = labels_in(labels);
    let last = labels_in(rules);
    for i in 0..end {
        let label = read_label(labels, i);
        let state = State {
            rest: label,
            sum: label,
        };
        count = put(out, states, count, operand, rules, last, state)?;
    }
    Ok(count)
}

// The same with no room to keep a state in.
fn put_each_short(
    labels: &[u64],
    operand: &[u64],
    rules: &[u64],
    out: &mut [u64],
    len: usize,
) -> Result<usize, TooLarge>
    requires { len ≤ length (held out.old) }
    ensures { Closes len (held labels.now) (held operand.now) (held rules.now)
        (held out.old) (held out.new) result }
{
    let mut none = [0u64; 1];
    put_each(labels, operand, rules, &mut none, out, len)
}

// The same with a memory, if the set ascends.
fn put_each_long(
    labels: &[u64],
    operand: &[u64],
    rules: &[u64],
    out: &mut [u64],
    len: usize,
) -> Result<usize, TooLarge>
    requires { len ≤ length (held out.old) }
    ensures { Closes len (held labels.now) (held operand.now) (held rules.now)
        (held out.old) (held out.new) result }
{
    let mut states = [0u64; MEMORY_WORDS];
    if ascends(out, 0, len) {
        return put_each(labels, operand, rules, &mut states, out, len);
    }
    put_each(labels, operand, rules, &mut states[..0], out, len)
}

// The labels of a row, which are all labels of an operand or some of them, each with all that comes of it by rules but what comes
// of another label of the operand. A memory costs more than it spares where there is little to choose from. As two ways lead to it, the
// compiler keeps it in a frame of its own: in the frame of this function its pages would be touched by every call.
pub fn close_each(
    labels: &[u64],
    operand: &[u64],
    rules: &[u64],
    out: &mut [u64],
    len: usize,
) -> Result<usize, TooLarge>
    ensures { Closes len (held labels.now) (held operand.now) (held rules.now)
        (held out.old) (held out.new) result }
{
    let count = reach(out, 0, len);
    if many_choices(labels, rules) {
        if count == 0 {
            return put_each_long(labels, operand, rules, out, 0);
        }
        return put_each_long(labels, operand, rules, out, count);
    }
    put_each_short(labels, operand, rules, out, count)
}

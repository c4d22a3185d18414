// What comes of a label by rules. They are taken from the last to the first, each any number of times before the next, so that the
// same applications are met once, whatever the order in which they could be made. Of a state that is known nothing new comes.
ghost use Rattle.std.specs.Prelude.{◌≡◌};
ghost use Rattle.areas.specs.Rows.{held};
ghost use Rattle.labels.specs.Packing.{code};
ghost use Rattle.rules.specs.Rules.{exchange_at, exchanges_before, step_of};
ghost use Rattle.choices.specs.Following.{each_rule, comes_of};
ghost use Rattle.exchanges.specs.Following.{Walking, Walked};

use areas::rows::labels_in;
use extents::at_start;
use memory::{known, remember};
use parts::Part;
use rules::State;
use rules::steps::step;
use sets::TooLarge;
use sets::inserting::enter;

// Where the rule whose left side is the i-th label leads from a state.
fn next_state(operand: &[u64], rules: &[u64], i: usize, state: State) -> Option<State>
    ensures { result ≡ step_of (held operand.now) (exchange_at (held rules.now) i) (code state.rest) (code state.sum) }
{
    let end = labels_in(operand);
    let all = Part { from: 0, to: end };
    step(operand, all, end, rules, i, state)
}

// The label of a state, and all that comes of it by the rules before a place.
#[cycle(follow_put)]
pub fn put(
    out: &mut [u64],
    states: &mut [u64],
    len: usize,
    operand: &[u64],
    rules: &[u64],
    before: usize,
    state: State,
) -> Result<usize, TooLarge>
    requires { Walking len (held operand.now) (held rules.now) (held out.old) (held states.old) }
    ensures { Walked
        (comes_of (held operand.now) (exchanges_before (held rules.now) before) (code state.rest) (code state.sum))
        len (held operand.now) (held rules.now) (held out.old) (held out.new) (held states.new) result }
{
    if known(states, rules, before, state) {
        return Ok(len);
    }
    let more = enter(out, at_start(len), state.sum)?;
    let count = follow(out, states, more, operand, rules, before, state)?;
    remember(states, before, state);
    Ok(count)
}

// All that comes of a state whose label is put in already.
#[cycle(follow_put)]
fn follow(
    out: &mut [u64],
    states: &mut [u64],
    len: usize,
    operand: &[u64],
    rules: &[u64],
    before: usize,
    state: State,
) -> Result<usize, TooLarge>
    requires { Walking len (held operand.now) (held rules.now) (held out.old) (held states.old) }
    ensures { Walked
        (each_rule (comes_of (held operand.now)) (held operand.now)
        (exchanges_before (held rules.now) before) (code state.rest) (code state.sum))
        len (held operand.now) (held rules.now) (held out.old) (held out.new) (held states.new) result }
{
    let mut count = len;
    // two labels at a time from the end: a range that counts rules would have to find each rule's place by a product
    let mut i = before;
    while 2 <= i {
        let last = i;
        i -= 2;
        if let Some(next) = next_state(operand, rules, i, state) {
            count = put(out, states, count, operand, rules, last, next)?;
        }
    }
    Ok(count)
}

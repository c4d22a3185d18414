// Where a rule leads.
ghost use Rattle.std.specs.Prelude.{◌≡◌};
ghost use Rattle.areas.specs.Rows.{held};
ghost use Rattle.labels.specs.Packing.{code};
ghost use Rattle.parts.specs.Parts.{words_of};
ghost use Rattle.rules.specs.Rules.{exchange_at, applies, step_of};

use crate::State;
use areas::rows::{labels_in, read_label};
use labels::Label;
use labels::bags::{difference, inside, joined};
use labels::packing::{same, tau};
use parts::Part;
use sets::inserting::contains;

// Whether the rule with this left side can be applied to what is left.
fn applies(left: Label, rest: Label) -> bool
    ensures { result ≡ applies (record { left = code left; right = 0 }) (code rest) }
{
    if same(left, tau()) {
        false
    } else {
        inside(left, rest)
    }
}

// Where the rule whose left side is the i-th label leads from a state; nowhere where there is no such rule. A label of the operand
// is followed by itself, which gives all that this state would: the rest lies inside it.
pub fn step(
    words: &[u64],
    operand: Part,
    before: usize,
    rules: &[u64],
    i: usize,
    state: State,
) -> Option<State>
    ensures { result ≡ step_of (words_of before operand (held words.now)) (exchange_at (held rules.now) i)
        (code state.rest) (code state.sum) }
{
    if labels_in(rules) <= i {
        return None;
    }
    let left = read_label(rules, i);
    if applies(left, state.rest) {
        let sum = joined(difference(state.sum, left), read_label(rules, i + 1));
        if contains(words, operand, before, sum) {
            None
        } else {
            let rest = difference(state.rest, left);
            Some(State { rest, sum })
        }
    } else {
        None
    }
}

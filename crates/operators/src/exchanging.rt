// The rules of comm, as labels on both sides.
ghost use Rattle.std.specs.Prelude.{◌≡◌, ◌≤◌, length, take};
ghost use Rattle.areas.specs.Rows.{held};
ghost use Rattle.operators.specs.Exchanging.{exchange_list};

use areas::rows::write_label;
use labels::bags::single;
use labels::{Label, WORD_END};
use table::RULE_WORDS;

// The words of eight rules.
const FIRST_WORDS: usize = 24;

// The first eight rules; a term has no more.
pub fn first_rules(rules: &[u64]) -> &[u64]
    ensures { result.now ≡ take 24 rules.now }
{
    &rules[..rules.len().min(FIRST_WORDS)]
}

// A rule's right side is a name; the closure wants the label of that one action.
pub fn exchanges(rules: &[u64]) -> [u64; 32]
    requires { length rules.now ≤ 24 }
    ensures { held result ≡ exchange_list rules.now }
{
    let mut list = [0u64; 32];
    for i in 0..rules.len() / RULE_WORDS {
        let at = RULE_WORDS * i;
        let left = Label {
            lower: rules[at] % WORD_END,
            upper: rules[at + 1],
        };
        write_label(&mut list, 2 * i, left);
        write_label(&mut list, 2 * i + 1, single(rules[at + 2]));
    }
    list
}

// The root's set, cut to the order.
#![tactic(auto)]

ghost use Rattle.std.specs.Prelude.{◌≡◌, ◌/◌, length};
ghost use Rattle.meaning.specs.Labels.{in_words};
ghost use Rattle.areas.specs.Areas.{put};
ghost use Rattle.areas.specs.Rows.{held};
ghost use Rattle.labels.specs.Packing.{code};
ghost use Rattle.cutting.specs.Cutting.{allows, cut_into};

use areas::rows::{labels_in, read_label};
use images::allowing::allowed;
use labels::{LABEL_WORDS, Label};

// Whether an order lets a label pass: it asks for all, or its list lets it.
fn admitted(all: bool, list: &[u64], label: Label) -> bool
    ensures { result ≡ allows all (held list.now) (code label) }
{
    all || allowed(list, label)
}

// The labels that the order allows go into the answer area, from its start, two words each; how many they are is returned. Where there
// is no room for the whole set nothing goes in.
pub fn cut(all: bool, list: &[u64], set: &[u64], answer: &mut [u64]) -> usize
    ensures words { answer.new
        ≡ put (in_words (cut_into all (held list.now) (held set.now) (length answer.old / 2))) answer.old }
    ensures count { result ≡ length (cut_into all (held list.now) (held set.now) (length answer.old / 2)) }
{
    let end = labels_in(set);
    if answer.len() / LABEL_WORDS < end {
        return 0;
    }
    let mut n = 0;
    for i in 0..end {
        let label = read_label(set, i);
        if admitted(all, list, label) {
            let at = LABEL_WORDS * n;
            answer[at] = label.lower;
            answer[at + 1] = label.upper;
            n += 1;
        }
    }
    n
}

// Whether a set is in order.
ghost use Rattle.std.specs.Prelude.{◌≡◌};
ghost use Rattle.areas.specs.Rows.{held};
ghost use Rattle.parts.specs.Parts.{set_at};
ghost use Rattle.sets.specs.Ascending.{rises};

use areas::rows::read_label;
use labels::packing::below;
use parts::placing::reach;

// Whether the labels of a set ascend: each is below the next.
pub fn ascends(words: &[u64], at: usize, len: usize) -> bool
    ensures { result ≡ rises (set_at at len (held words.now)) }
{
    let count = reach(words, at, len);
    if count == 0 {
        return true;
    }
    let mut last = read_label(words, at);
    for i in 1..count {
        let next = read_label(words, at + i);
        if !below(last, next) {
            return false;
        }
        last = next;
    }
    true
}

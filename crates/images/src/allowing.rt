// Which labels a list of labels lets pass.
ghost use Rattle.std.specs.Prelude.{◌≡◌};
ghost use Rattle.areas.specs.Rows.{held};
ghost use Rattle.labels.specs.Packing.{code};
ghost use Rattle.images.specs.Allowing.{allowed_in};

use areas::rows::labels_in;
use labels::Label;
use labels::packing::{same, tau};
use parts::Part;
use sets::inserting::contains;

// Whether a list of labels lets a label pass: it does if the label is found in it, and it always lets tau. Lists ascend, so a label
// is looked for by search: what a list lets pass is asked for each new label.
pub fn allowed(list: &[u64], label: Label) -> bool
    ensures { result ≡ allowed_in (code label) (held list.now) }
{
    if same(label, tau()) {
        return true;
    }
    let end = labels_in(list);
    let all = Part { from: 0, to: end };
    contains(list, all, end, label)
}

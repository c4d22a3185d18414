// The labels of a row, copied or through an operator.
ghost use Rattle.std.specs.Prelude.{◌≡◌, ◌≤◌, ◌<◌, ◌^◌, length};
ghost use Rattle.areas.specs.Rows.{held};
ghost use Rattle.labels.specs.Packing.{code};
ghost use Rattle.extents.specs.Extents.{at_start};
ghost use Rattle.sets.specs.Building.{GrownAt, each, enter, taken};
ghost use Rattle.images.specs.Imaging.{taken_by, offered, imaged, MapFor, offer_of};

use crate::Way;
use crate::allowing::allowed;
use areas::rows::{labels_in, read_label};
use exchanges::closing::close_each;
use extents::at_start;
use labels::{Label, NAMES};
use names::{clear, hide, rename, renaming};
use parts::placing::reach;
use sets::TooLarge;
use sets::inserting::enter;

// What a way makes of a label, whose lower word has nothing above the bits of names.
fn made(way: Way, list: &[u64], map: &[u64; NAMES], label: Label) -> Option<Label>
    requires { MapFor way list.now map.now × (label.lower < 2 ^ 60) }
    ensures { result ≡ offer_of way (taken_by way list.now) (code label) }
{
    match way {
        Way::Copy => Some(label),
        Way::Block => clear(label, list).then_some(label),
        Way::Hide => Some(hide(label, list)),
        Way::Rename => Some(rename(label, *map)),
        Way::Comm => Some(label),
        Way::Allow => allowed(list, label).then_some(label),
    }
}

// A label that is offered goes into the set.
fn take(out: &mut [u64], len: usize, offer: Option<Label>) -> Result<usize, TooLarge>
    requires { len ≤ length (held out.old) }
    ensures { GrownAt (at_start len) (λ room. taken (enter room) offer) (held out.old) (held out.new) result }
{
    match offer {
        None => Ok(len),
        Some(label) => enter(out, at_start(len), label),
    }
}

// What a way makes of the labels of a row, and no rule is followed.
fn add_offered(
    way: Way,
    list: &[u64],
    map: &[u64; NAMES],
    labels: &[u64],
    out: &mut [u64],
    len: usize,
) -> Result<usize, TooLarge>
    requires { MapFor way list.now map.now }
    ensures { GrownAt (at_start len) (λ room. each (offered room way (taken_by way list.now)) (held labels.now))
        (held out.old) (held out.new) result }
{
    let mut count = reach(out, 0, len);
    let end = labels_in(labels);
    for i in 0..end {
        let label = read_label(labels, i);
        let offer = made(way, list, map, label);
        count = take(out, count, offer)?;
    }
    Ok(count)
}

// What the labels of a row give. They are all labels of an operand or some of them: by rules nothing comes of one that comes of
// another label of the operand. Only a renaming has a map, which is made of the list once for the row. The rows are lent anew: as they came
// they would be copied whole.
pub fn add_image(
    way: Way,
    list: &[u64],
    labels: &[u64],
    operand: &[u64],
    out: &mut [u64],
    len: usize,
) -> Result<usize, TooLarge>
    ensures { GrownAt (at_start len)
        (λ room. each (imaged room way (taken_by way list.now) (held operand.now)) (held labels.now))
        (held out.old) (held out.new) result }
{
    let mut map = [0u64; NAMES];
    match way {
        Way::Comm => {
            return close_each(&labels[0..], &operand[0..], &list[0..], &mut out[0..], len);
        }
        Way::Rename => {
            map = renaming(list);
        }
        _ => {}
    }
    add_offered(way, list, &map, labels, out, len)
}

// Entries of two sides, with `>` between them: pairs and rules.
ghost use Rattle.std.specs.Prelude.{◌≡◌, ◌≤◌, map, length, drop};
ghost use Rattle.table.specs.Decoded.{name_of};
ghost use Rattle.grammar.specs.Text.{placed};
ghost use Rattle.grammar.specs.Forms.{pair, rule};
ghost use Rattle.lists.specs.Entries.{Says, said_of, seen, pair_entry, rule_entry};
ghost use Rattle.lists.specs.Sides.{right_side, two_or_more};
ghost use Rattle.lists.specs.Starts.{Starting};

use crate::Said;
use crate::dotted::read_label;
use crate::names::name_from;
use faults::{amount_unless, worse_of};
use labels::packing::number_of;
use words::literals::sign_at;
use words::{Reading, Stuck, Taken, shifted};

// An entry whose left side was read: `>` and a name follow.
fn with_right(
    left: Said,
    after: usize,
    rest: &[u8],
    names: &[u64],
    starts: &[u8; 32],
) -> Reading<Said>
    requires { (after ≤ length rest.now) × Starting names.now starts.now }
    ensures { Says rest.now result (right_side (map (name_of 8) names.now) (said_of (length rest.now) left) (drop after rest.now)) }
{
    if !sign_at(rest, after, b'>') {
        return Err(Stuck { after });
    }
    let behind = after + 1;
    let right = name_from(&rest[behind..], names, starts);
    let Taken { value: name, bytes } = shifted(right, behind)?;
    let value = Said {
        fault: worse_of(left.fault, name.fault),
        first: left.first,
        second: number_of(name.first),
    };
    Ok(Taken { value, bytes })
}

// A name on each side.
pub fn read_pair(rest: &[u8], names: &[u64], starts: &[u8; 32]) -> Reading<Said>
    requires { Starting names.now starts.now }
    ensures { Says rest.now result (seen (pair_entry (map (name_of 8) names.now)) (placed pair) rest.now) }
{
    let left = name_from(rest, names, starts)?;
    with_right(left.value, left.bytes, rest, names, starts)
}

// A rule's left side has at least two actions; else the rule is at fault, at its place.
fn two_or_more(label: Said, from: usize) -> Said
    ensures { said_of from result ≡ two_or_more from (said_of from label) }
{
    Said {
        fault: worse_of(label.fault, amount_unless(2 <= label.second, from)),
        first: label.first,
        second: label.second,
    }
}

// A label on the left side.
pub fn read_rule(rest: &[u8], names: &[u64], starts: &[u8; 32]) -> Reading<Said>
    requires { (length names.now ≤ 24) × Starting names.now starts.now }
    ensures { Says rest.now result (seen (rule_entry (map (name_of 8) names.now)) (placed rule) rest.now) }
{
    let label = read_label(rest, names, starts)?;
    let left = two_or_more(label.value, rest.len());
    with_right(left, label.bytes, rest, names, starts)
}

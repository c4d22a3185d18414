// Names, looked for from the first with their letter on.
ghost use Rattle.std.specs.Prelude.{◌%◌, ◌^◌, ◌≤◌, ◌<◌, ◌≡◌, map, length};
ghost use Rattle.table.specs.Decoded.{name_of};
ghost use Rattle.grammar.specs.Text.{placed, word};
ghost use Rattle.lists.specs.Entries.{Says, seen, name_entry};
ghost use Rattle.lists.specs.Starts.{Starting};

use crate::Said;
use faults::name_fault;
use labels::packing::label_of;
use words::names::{find_from, read_word};
use words::{Reading, Taken};

// The last five bits of a name's first letter, which tell the letters apart. (A name is a word.)
fn letter_of(w: u64) -> usize
    ensures { (result ≡ w % 32) × (w < 2 ^ 64) }
{
    (w % 32) as usize
}

// The number of the first name with each letter; of letters that no name has, that after the last.
pub fn starts_of(names: &[u64]) -> [u8; 32]
    requires { length names.now ≤ 24 }
    ensures { Starting names.now result }
{
    let mut starts = [names.len() as u8; 32];
    for n in (0..names.len()).rev() {
        let letter = letter_of(names[n]);
        starts[letter] = n as u8;
    }
    starts
}

// A name: its number among those given, none of which is that name before the start of its letter.
pub fn name_from(rest: &[u8], names: &[u64], starts: &[u8; 32]) -> Reading<Said>
    requires { Starting names.now starts.now }
    ensures { Says rest.now result (seen (name_entry (map (name_of 8) names.now)) (placed word) rest.now) }
{
    let Taken { value: w, bytes } = read_word(rest)?;
    let letter = letter_of(w);
    let n = find_from(names, starts[letter] as usize, w);
    let value = Said {
        fault: name_fault(n, names.len(), rest.len()),
        first: label_of(n as u64),
        second: 0,
    };
    Ok(Taken { value, bytes })
}

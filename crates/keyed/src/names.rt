// The lines with a name.
ghost use Rattle.std.specs.Prelude.{◌≡◌, [], ◌∷◌, ◌++◌, map, suc};
ghost use Rattle.table.specs.Decoded.{name_of};
ghost use Rattle.grammar.specs.Forms.{name_line};
ghost use Rattle.grammar.specs.Reading.{is_free, take_name, one_line};
ghost use Rattle.words.specs.Steps.{Steps};
ghost use Rattle.keyed.specs.Ends.{placed_after};
ghost use Rattle.keyed.specs.Walks.{Walks};

use crate::{BadLine, at_end};
use faults::{Fault, flaw_after};
use words::literals::read_literal;
use words::names::{find_name, read_word};
use words::{Reading, Taken};

// The bytes of `name=`.
const KEY_BYTES: usize = 5;

// A name after `name=`, packed.
fn read_name_line(text: &[u8]) -> Reading<u64>
    ensures { Steps (λ w. placed_after 5 text.now (name_of 8 w)) text.now result (name_line text.now) }
{
    let key = read_literal(text, b"name=")?;
    let at = key.bytes;
    at_end(text, at, read_word(&text[at..]))
}

// A name is no earlier one, and none of the words tau, none and all.
fn is_free(names: &[u64], w: u64) -> bool
    ensures { result ≡ is_free (map (name_of 8) names.now) (name_of 8 w) }
{
    let reserved = [7692660u64, 1701736302u64, 7105633u64];
    if find_name(names, w) < names.len() {
        return false;
    }
    3 <= find_name(&reserved, w)
}

// One name more, after those that were given before it.
pub fn take_name(text: &[u8], line: usize, names: &[u64]) -> Result<Taken<u64>, BadLine>
    ensures { Walks (λ w. map (name_of 8) names.now ++ (name_of 8 w ∷ [])) text.now (suc line) result
        (one_line (take_name (map (name_of 8) names.now)) line text.now) }
{
    let name = match read_name_line(text) {
        Ok(name) => name,
        Err(stuck) => {
            let flaw = flaw_after(text, Fault::Form, stuck.after);
            return Err(BadLine { flaw, line });
        }
    };
    if !is_free(names, name.value) {
        let flaw = flaw_after(text, Fault::Name, KEY_BYTES);
        return Err(BadLine { flaw, line });
    }
    Ok(name)
}

// Names: read and packed in a word, and looked up by it.
ghost use Rattle.std.specs.Prelude.{◌||◌, map, ◌≡◌};
ghost use Rattle.table.specs.Decoded.{name_of};
ghost use Rattle.grammar.specs.Text.{is_lower, is_digit, word};
ghost use Rattle.grammar.specs.Faults.{name_number};
ghost use Rattle.words.specs.Searches.{number_from};
ghost use Rattle.words.specs.Steps.{Steps};

use crate::{Reading, Stuck, Taken};

// A letter or a digit, as a name has them after its first letter.
fn goes_on(b: u8) -> bool
    ensures { result ≡ (is_lower b || is_digit b) }
{
    b.is_ascii_lowercase() || b.is_ascii_digit()
}

// A name: a lower-case letter, then up to seven letters or digits. It is packed in a word, its first byte lowest.
pub fn read_word(rest: &[u8]) -> Reading<u64>
    ensures { Steps (λ w. name_of 8 w) rest.now result (word rest.now) }
{
    let most = rest.len().min(8);
    if most == 0 || !rest[0].is_ascii_lowercase() {
        return Err(Stuck { after: 0 });
    }
    let mut value = rest[0] as u64;
    for bytes in 1..most {
        let b = rest[bytes];
        if !goes_on(b) {
            return Ok(Taken { value, bytes });
        }
        value += (b as u64) << (8 * bytes);
    }
    Ok(Taken { value, bytes: most })
}

// The number of a name among those given, where none before `start` is that name; a name that is not there has the number after the last.
// It stays a number, and no Option: an entry whose name was not given is still ordered by that number (`name_entry` of `lists`).
pub fn find_from(names: &[u64], start: usize, w: u64) -> usize
    ensures { result ≡ number_from names.now start w }
{
    for i in start..names.len() {
        if names[i] == w {
            return i;
        }
    }
    start.max(names.len())
}

// The same, looked for from the first name on.
pub fn find_name(names: &[u64], w: u64) -> usize
    ensures { result ≡ name_number (map (name_of 8) names.now) (name_of 8 w) }
{
    find_from(names, 0, w)
}

// A line of a key and a number.
ghost use Rattle.std.specs.Prelude.{◌≡◌, leb, length};
ghost use Rattle.grammar.specs.Marks.{decimal};
ghost use Rattle.grammar.specs.Printed.{line};
ghost use Rattle.grammar.specs.Areas.{WrittenOrNone};

use crate::{copy, number_fits, write_digits};

// The number is held to what the key and the line's end leave.
fn line_fits(key: &[u8], n: usize, room: usize) -> bool
    ensures { result ≡ leb (length (line key.now (decimal n))) room }
{
    if room <= key.len() {
        return false;
    }
    let left = room - key.len() - 1;
    number_fits(n, left)
}

// The key, the number in decimal and the line's end: their length is returned, or None where the area is too short for them.
pub fn write_count_line(text: &mut [u8], key: &[u8], n: usize) -> Option<usize>
    ensures { WrittenOrNone (line key.now (decimal n)) text.old text.new result }
{
    if !line_fits(key, n, text.len()) {
        return None;
    }
    let at = copy(key, text)?;
    let end = at + write_digits(&mut text[at..], n);
    text[end] = b'\n';
    Some(end + 1)
}

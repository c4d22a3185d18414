// Numbers in decimal, and lines of a key and a number, written into an area that is lent for them: whole, or not at all.
#![tactic(auto)]

pub mod lines;

ghost use Rattle.std.specs.Prelude.{◌≡◌, ◌≤◌, leb, length};
ghost use Rattle.grammar.specs.Marks.{decimal};
ghost use Rattle.grammar.specs.Areas.{Written, WrittenOrNone};

// A text written to the start of an area: its length is returned, or None where the area is too short for it.
pub fn copy(source: &[u8], text: &mut [u8]) -> Option<usize>
    ensures { WrittenOrNone source.now text.old text.new result }
{
    let size = source.len();
    if text.len() < size {
        return None;
    }
    text[..size].copy_from_slice(source);
    Some(size)
}

// The digits before the last are those of a tenth of the number.
fn write_digits(text: &mut [u8], n: usize) -> usize
    requires { length (decimal n) ≤ length text.old }
    ensures { Written (decimal n) text.old text.new result }
{
    if n < 10 {
        text[0] = b'0' + n as u8;
        return 1;
    }
    let at = write_digits(text, n / 10);
    text[at] = b'0' + (n % 10) as u8;
    at + 1
}

// A word has at most twenty digits.
const LONGEST_NUMBER: usize = 20;

// Where every number fits, none is measured.
fn number_fits(n: usize, room: usize) -> bool
    ensures { result ≡ leb (length (decimal n)) room }
{
    if LONGEST_NUMBER <= room {
        return true;
    }
    let mut scratch = [0u8; LONGEST_NUMBER];
    write_digits(&mut scratch, n) <= room
}

// A number in decimal: its length is returned, or None where the area is too short for it.
pub fn write_number(text: &mut [u8], n: usize) -> Option<usize>
    ensures { WrittenOrNone (decimal n) text.old text.new result }
{
    if number_fits(n, text.len()) {
        return Some(write_digits(text, n));
    }
    None
}

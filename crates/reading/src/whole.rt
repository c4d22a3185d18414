// The lines of the whole text: those before the terms, the terms, those after them, the order. Each function is lent the text from its
// first line on.
ghost use Rattle.std.specs.Prelude.{◌*◌, ◌≤◌, length};
ghost use Rattle.reading.specs.Whole.{TermsDue, LinesRead};

use crate::ReadError;
use feet::read_end;
use heads::read_head;
use table::{LIST_WORDS, Order, bodies_of, names_of};
use termlines::read_terms;

// The lines from the terms' on, which follow the names and three counts.
fn from_terms(
    text: &[u8],
    count: usize,
    table: &mut [u64],
    lists: &mut [u64],
    listed: &mut [u64],
) -> Result<Order, ReadError>
    requires { (count ≤ 96) × (140 ≤ length table.old) × (64 * count ≤ length lists.old) }
    ensures { TermsDue text.now count table.old lists.old listed.old
        table.new lists.new listed.new result }
{
    let equations = bodies_of(table).len();
    let line = 4 + names_of(table).len();
    let at = read_terms(text, line, equations, count, table, lists)?;
    let last = read_end(&text[at..], line + count, equations, count, table, listed)?;
    Ok(last.value)
}

// All lines of a text that is not too long. Where the lists have no room for its terms these are not read.
pub(crate) fn read_lines(
    text: &[u8],
    table: &mut [u64],
    lists: &mut [u64],
    listed: &mut [u64],
) -> Result<Order, ReadError>
    requires { (140 ≤ length table.old) × (64 ≤ length listed.old) }
    ensures { LinesRead text.now table.old lists.old listed.old
        table.new lists.new listed.new result }
{
    let head = read_head(text, table)?;
    let count = head.value as usize;
    if lists.len() / LIST_WORDS < count {
        return Err(ReadError::NoRoom);
    }
    from_terms(&text[head.bytes..], count, table, lists, listed)
}

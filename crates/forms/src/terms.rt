// Term lines: the kind's word and what follows it.
ghost use Rattle.std.specs.Prelude.{◌≤◌, map, length};
ghost use Rattle.table.specs.Decoded.{name_of};
ghost use Rattle.grammar.specs.Forms.{term_line};
ghost use Rattle.tails.specs.Lines.{LineRead};
ghost use Rattle.forms.specs.Terms.{TermAnswer};

use crate::kinds::find_kind;
use ranges::Bounds;
use table::NAMES;
use tails::{TermLine, read_tail};
use words::literals::read_literal;
use words::{Reading, Stuck, shifted};

// The key, the kind's word and what follows it.
fn read_line(text: &[u8], names: &[u64], bounds: Bounds, list: &mut [u64]) -> Reading<TermLine>
    requires { length names.now ≤ 24 }
    ensures { LineRead (map (name_of 8) names.now) bounds text.now (term_line text.now)
        list.old list.new result }
{
    let key = read_literal(text, b"term=")?;
    let kind = find_kind(text, key.bytes)?;
    let next = kind.bytes;
    let tail = read_tail(kind.value, &text[next..], names, bounds, list);
    shifted(tail, next)
}

// A term's line, by the term's number, from the start of the text. The list is that of the term: the words of the line's list are put
// over its start. With more names than a description has nothing is read.
pub fn read_term(
    text: &[u8],
    names: &[u64],
    equations: usize,
    n: usize,
    list: &mut [u64],
) -> Reading<TermLine>
    ensures { TermAnswer names.now equations n text.now list.old list.new result }
{
    if NAMES < names.len() {
        return Err(Stuck { after: 0 });
    }
    let bounds = Bounds { equations, term: n };
    read_line(text, names, bounds, list)
}

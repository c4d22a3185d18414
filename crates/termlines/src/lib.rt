// The lines of terms: each goes to its word of the table, and its list to its words of the lists.
#![tactic(auto)]

ghost use Rattle.std.specs.Prelude.{◌≤◌, length};
ghost use Rattle.termlines.specs.Terms.{TermRead, TermsRoom, TermsRead, TermsGiven};

use faults::{Fault, first_flaw, flaw_after, flaw_in};
use forms::terms::read_term;
use keyed::BadLine;
use slots::packing::pack;
use table::{LIST_WORDS, TABLE_WORDS, TERMS, TERMS_AT, names_of};
use words::Taken;

// The largest number that the first of the lines can have, behind twenty-four names and three counts.
const FIRST_LINE: usize = 28;

// One line, by the term's number and the line's; its packed term is returned.
fn take_term(
    text: &[u8],
    line: usize,
    names: &[u64],
    equations: usize,
    n: usize,
    list: &mut [u64],
) -> Result<Taken<u64>, BadLine>
    requires { length names.now ≤ 24 }
    ensures { TermRead text.now line names.now equations n list.old list.new result }
{
    let read = match read_term(text, names, equations, n, list) {
        Ok(read) => read,
        Err(stuck) => {
            let flaw = flaw_after(text, Fault::Form, stuck.after);
            return Err(BadLine { flaw, line });
        }
    };
    if let Some(found) = read.value.fault {
        let flaw = flaw_in(text, found.fault, found.from);
        return Err(BadLine { flaw, line });
    }
    Ok(Taken {
        value: pack(read.value.term),
        bytes: read.bytes,
    })
}

// So many lines of terms, where there is room for them. How many bytes they took is returned.
fn take_terms(
    text: &[u8],
    line: usize,
    equations: usize,
    count: usize,
    table: &mut [u64],
    lists: &mut [u64],
) -> Result<usize, BadLine>
    requires { TermsRoom line count table.old lists.old }
    ensures { TermsRead text.now line equations count table.old lists.old
        table.new lists.new result }
{
    let mut from = 0;
    for n in 0..count {
        let first = LIST_WORDS * n;
        let last = first + LIST_WORDS;
        let term = take_term(
            &text[from..],
            line + n,
            names_of(table),
            equations,
            n,
            &mut lists[first..last],
        )?;
        table[TERMS_AT + n] = term.value;
        from += term.bytes;
    }
    Ok(from)
}

// So many lines of terms, by the number of the first. Where there is no room for them all is refused as if
// that line were bad.
pub fn read_terms(
    text: &[u8],
    line: usize,
    equations: usize,
    count: usize,
    table: &mut [u64],
    lists: &mut [u64],
) -> Result<usize, BadLine>
    ensures { TermsGiven text.now line equations count table.old lists.old
        table.new lists.new result }
{
    let flaw = first_flaw();
    if FIRST_LINE < line {
        return Err(BadLine { flaw, line });
    }
    if TERMS < count {
        return Err(BadLine { flaw, line });
    }
    if table.len() < TABLE_WORDS {
        return Err(BadLine { flaw, line });
    }
    if lists.len() / LIST_WORDS < count {
        return Err(BadLine { flaw, line });
    }
    take_terms(text, line, equations, count, table, lists)
}

// The lines after the terms, to the text's end: the bodies and the root, which hold a number each, and the order.
#![tactic(auto)]

ghost use Rattle.std.specs.Prelude.{◌≤◌, length};
ghost use Rattle.feet.specs.Feet.{BodiesRead, FootRead};
ghost use Rattle.feet.specs.Ends.{EndRoom, EndGiven};
ghost use Rattle.sections.specs.Sections.{Whether};

use faults::{Fault, first_flaw};
use keyed::BadLine;
use keyed::numbers::take_number;
use orderlines::take_order;
use table::{BODIES_AT, EQUATIONS, Order, ROOT_AT, TABLE_WORDS, names_of};
use words::Taken;

// The largest number that the first of the lines can have, behind twenty-four names, three counts and 96 terms.
const FIRST_LINE: usize = 124;

// So many lines of bodies, each the number of one of so many terms; each goes to its word of the table. How many bytes they took is returned.
fn read_bodies(
    text: &[u8],
    line: usize,
    equations: usize,
    terms: usize,
    table: &mut [u64],
) -> Result<usize, BadLine>
    requires { (line ≤ 124) × (equations ≤ 16) × (140 ≤ length table.old) }
    ensures { BodiesRead text.now line equations terms table.old table.new result }
{
    let mut from = 0;
    for i in 0..equations {
        let body = take_number(
            &text[from..],
            line + i,
            b"equation=",
            0,
            terms as u64,
            Fault::Range,
        )?;
        table[BODIES_AT + i] = body.value;
        from += body.bytes;
    }
    Ok(from)
}

// The bodies and the root.
fn read_foot(
    text: &[u8],
    line: usize,
    equations: usize,
    terms: usize,
    table: &mut [u64],
) -> Result<usize, BadLine>
    requires { (line ≤ 124) × (equations ≤ 16) × (140 ≤ length table.old) }
    ensures { FootRead text.now line equations terms table.old table.new result }
{
    let at = read_bodies(text, line, equations, terms, table)?;
    let below = terms as u64;
    let root = take_number(
        &text[at..],
        line + equations,
        b"root=",
        0,
        below,
        Fault::Range,
    )?;
    table[ROOT_AT] = root.value;
    Ok(at + root.bytes)
}

// The lines stand no later than they can, and the table has a word for each body.
fn has_room(line: usize, equations: usize, table: usize) -> bool
    ensures { Whether result (EndRoom line equations table) }
{
    if FIRST_LINE < line {
        return false;
    }
    if EQUATIONS < equations {
        return false;
    }
    if table < TABLE_WORDS {
        return false;
    }
    true
}

// All lines after so many terms, by the number of the first; the names stand in the table. The text ends with them. Where there
// is no room for them all is refused as if that line were bad.
pub fn read_end(
    text: &[u8],
    line: usize,
    equations: usize,
    terms: usize,
    table: &mut [u64],
    listed: &mut [u64],
) -> Result<Taken<Order>, BadLine>
    ensures { EndGiven text.now line equations terms table.old listed.old
        table.new listed.new result }
{
    if !has_room(line, equations, table.len()) {
        let flaw = first_flaw();
        return Err(BadLine { flaw, line });
    }
    let at = read_foot(text, line, equations, terms, table)?;
    take_order(&text[at..], line + equations + 1, names_of(table), listed)
}

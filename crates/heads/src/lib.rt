// The lines before the terms: the names, and how many equations and terms there are.
#![tactic(auto)]

ghost use Rattle.std.specs.Prelude.{◌≤◌, length};
ghost use Rattle.heads.specs.Heads.{NamesRead, CountsRead, HeadGiven};

use faults::{Fault, first_flaw};
use keyed::BadLine;
use keyed::names::take_name;
use keyed::numbers::take_number;
use table::{COUNTED_AT, EQUATED_AT, NAMED_AT, NAMES_AT, TABLE_WORDS};
use words::Taken;

// So many lines of names, from the second line on; each goes to its word of the table. How many bytes they took is returned.
fn read_names(text: &[u8], named: usize, table: &mut [u64]) -> Result<usize, BadLine>
    requires { (named ≤ 24) × (140 ≤ length table.old) }
    ensures { NamesRead text.now named table.old table.new result }
{
    let mut from = 0;
    for i in 0..named {
        let end = NAMES_AT + i;
        let name = take_name(&text[from..], 2 + i, &table[NAMES_AT..end])?;
        table[end] = name.value;
        from += name.bytes;
    }
    Ok(from)
}

// The counts of equations and of terms, which follow so many names. The number of terms is returned.
fn read_counts(text: &[u8], named: usize, table: &mut [u64]) -> Result<Taken<u64>, BadLine>
    requires { (named ≤ 24) × (140 ≤ length table.old) }
    ensures { CountsRead text.now named table.old table.new result }
{
    let equations = take_number(text, 2 + named, b"equations=", 0, 17, Fault::Form)?;
    let at = equations.bytes;
    let terms = take_number(&text[at..], 3 + named, b"terms=", 1, 97, Fault::Form)?;
    table[NAMED_AT] = named as u64;
    table[EQUATED_AT] = equations.value;
    table[COUNTED_AT] = terms.value;
    Ok(Taken {
        value: terms.value,
        bytes: at + terms.bytes,
    })
}

// All lines before the terms, from the text's first on. The number of terms is returned. A table that is too short is
// refused as if that line were bad.
pub fn read_head(text: &[u8], table: &mut [u64]) -> Result<Taken<u64>, BadLine>
    ensures { HeadGiven text.now table.old table.new result }
{
    if table.len() < TABLE_WORDS {
        let flaw = first_flaw();
        return Err(BadLine { flaw, line: 1 });
    }
    let given = take_number(text, 1, b"names=", 1, 25, Fault::Form)?;
    let at = given.bytes;
    let named = given.value as usize;
    let next = at + read_names(&text[at..], named, table)?;
    let counts = read_counts(&text[next..], named, table)?;
    Ok(Taken {
        value: counts.value,
        bytes: next + counts.bytes,
    })
}

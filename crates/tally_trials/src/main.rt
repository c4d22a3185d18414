// Tries a tally for the tests: of each record on standard input it adds the verdict, and writes what became of it and the tally.
//
// A record has 69 bytes. The first is 1 where the tally is begun anew, from the eleven figures that follow in four bytes each:
// descriptions, answered ones, refusals 1, 2, 3, 4, 5, 7 and 10, labels, rounds. After any other first byte the figures are passed over
// and the tally runs on; before the first record it is empty. Then come the number, the rounds and the labels of a verdict, in eight
// bytes each. The lower bytes of a number stand first. What is left of a record at the end of the input is dropped.
#![tactic(auto)]

ghost use Rattle.std.specs.Prelude.{◌≤◌, length};
ghost use Rattle.tally.specs.Additions.{Adds};

use numerals::copy;
use std::io;
use std::io::Read;
use tally::{Addition, LeftOut, Tally, Verdict, add, empty};
use tally_texts::{LONGEST_TALLY, write_tally};

const RECORD: usize = 69;

// The first byte of a record that begins anew.
const ANEW: u8 = 1;

// What is written of a record: a line of at most eight bytes, and the text of a tally.
const TEXT: usize = 8 + LONGEST_TALLY;

// The number in four bytes of a record.
fn figure(record: &[u8; RECORD], at: usize) -> u32
    requires { at ≤ 65 }
{
    u32::from_le_bytes([record[at], record[at + 1], record[at + 2], record[at + 3]])
}

// The number in eight bytes of a record.
fn number(record: &[u8; RECORD], at: usize) -> usize
    requires { at ≤ 61 }
{
    u64::from_le_bytes([
        record[at],
        record[at + 1],
        record[at + 2],
        record[at + 3],
        record[at + 4],
        record[at + 5],
        record[at + 6],
        record[at + 7],
    ]) as usize
}

// What a record begins anew from, and what it adds; the numbers are the places of its bytes.
fn tally_in(record: &[u8; RECORD]) -> Tally {
    Tally {
        descriptions: figure(record, 1),
        answered: figure(record, 5),
        refusals: [
            figure(record, 9),
            figure(record, 13),
            figure(record, 17),
            figure(record, 21),
            figure(record, 25),
            figure(record, 29),
            figure(record, 33),
        ],
        labels: figure(record, 37),
        rounds: figure(record, 41),
    }
}

fn verdict_in(record: &[u8; RECORD]) -> Verdict {
    Verdict {
        reason: number(record, 45),
        rounds: number(record, 53),
        labels: number(record, 61),
    }
}

// What the verdict of a record is added to.
fn begun(running: Tally, record: &[u8; RECORD]) -> Tally {
    if record[0] == ANEW {
        return tally_in(record);
    }
    running
}

// The line that says what became of a verdict. Its length is returned.
fn write_said(text: &mut [u8], answer: Result<(), LeftOut>) -> usize
    requires { 8 ≤ length text.old }
    ensures { result ≤ 8 }
{
    match answer {
        Ok(()) => copy(b"said=0\n", text).unwrap(),
        Err(LeftOut::Full) => copy(b"said=17\n", text).unwrap(),
        Err(LeftOut::NoVerdict) => copy(b"said=18\n", text).unwrap(),
    }
}

// Many records are tried, so all that is said of one is written at once.
fn write_addition(output: &impl Print, addition: Addition) -> io::Result<()> {
    let answer = addition.answer;
    let after = addition.tally;
    let mut text = [0u8; TEXT];
    let at = write_said(&mut text, answer);
    let length = write_tally(&mut text[at..], after).unwrap();
    let end = at + length;
    output.write_all(&text[..end])
}

// Adds through a reference, as to a tally that runs on; what then stands behind it is handed back.
fn in_place(before: Tally, verdict: Verdict) -> Addition
    ensures { Adds before verdict result.tally result.answer }
{
    let mut tally = before;
    let answer = add(&mut tally, verdict);
    Addition { tally, answer }
}

// One record is read, tried and told: the running tally behind it, if there was one more whole record.
fn after_record(
    input: &mut impl Read,
    output: &impl Print,
    running: Tally,
) -> io::Result<Option<Tally>> {
    let mut record = [0u8; RECORD];
    // Where the input ends or cannot be read, no whole record is left.
    if input.read_exact(&mut record).is_err() {
        return Ok(None);
    }
    let before = begun(running, &record);
    let addition = in_place(before, verdict_in(&record));
    write_addition(output, addition)?;
    Ok(Some(addition.tally))
}

// Nothing says that an input ends, so the turns are bounded by a number that none uses up.
fn main(rt: HostRuntime) -> io::Result<()> {
    let mut input = rt.stdin();
    let mut running = empty();
    for _ in 0..u64::MAX {
        let Some(after) = after_record(&mut input, &rt, running)? else {
            break;
        };
        running = after;
    }
    Ok(())
}

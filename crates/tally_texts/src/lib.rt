// The text of a tally, written into an area that is lent for it.
//
// It is written to a scratch area that holds every tally's text, line behind line, and copied from there where it fits.
#![tactic(auto)]

ghost use Rattle.std.specs.Prelude.{◌≡◌, ◌++◌, ◌+◌, ◌≤◌, length, take};
ghost use Rattle.meaning.specs.Labels.{size};
ghost use Rattle.grammar.specs.Marks.{decimal};
ghost use Rattle.grammar.specs.Printed.{line};
ghost use Rattle.grammar.specs.Areas.{Written, WrittenOrNone};
ghost use Rattle.tally.specs.Figures.{refusal_numbers};
ghost use Rattle.tally_texts.specs.Texts.{reason_key, reason_lines, tally_text};

use numerals::lines::write_count_line;
use numerals::{copy, write_number};
use tally::{REFUSALS, Tally};

// The sum of seven figures is far below a word.
fn refused_in(refusals: [u32; REFUSALS]) -> usize
    ensures { result ≡ size refusals }
{
    refusals.iter().map(|figure| *figure as usize).sum()
}

// A line behind the first bytes of an area, which stay: where it ends is returned.
fn add_line(text: &mut [u8], at: usize, key: &[u8], n: usize) -> usize
    requires { at + length (line key.now (decimal n)) ≤ length text.old }
    ensures { Written (take at text.old ++ line key.now (decimal n)) text.old text.new result }
{
    at + write_count_line(&mut text[at..], key, n).unwrap()
}

// The line of a refusal, whose number is part of the key.
fn write_reason(text: &mut [u8], number: usize, n: usize) -> usize
    requires { length (line (reason_key number) (decimal n)) ≤ length text.old }
    ensures { Written (line (reason_key number) (decimal n)) text.old text.new result }
{
    let named = copy(b"reason", text).unwrap();
    let numbered = named + write_number(&mut text[named..], number).unwrap();
    add_line(text, numbered, b"=", n)
}

// The refusals in the order of their figures.
const NUMBERS: [usize; REFUSALS] = [1, 2, 3, 4, 5, 7, 10];

fn add_reasons(text: &mut [u8], at: usize, refusals: [u32; REFUSALS]) -> usize
    requires { at + length (reason_lines refusal_numbers refusals) ≤ length text.old }
    ensures { Written (take at text.old ++ reason_lines refusal_numbers refusals) text.old text.new result }
{
    let mut end = at;
    for (number, figure) in NUMBERS.iter().zip(refusals.iter()) {
        end += write_reason(&mut text[end..], *number, *figure as usize);
    }
    end
}

// The twelve lines, each behind those before it.
fn write_lines(text: &mut [u8], tally: Tally) -> usize
    requires { length (tally_text tally) ≤ length text.old }
    ensures { Written (tally_text tally) text.old text.new result }
{
    let refusals = tally.refusals;
    let mut end = add_line(text, 0, b"descriptions=", tally.descriptions as usize);
    end = add_line(text, end, b"answered=", tally.answered as usize);
    end = add_line(text, end, b"refused=", refused_in(refusals));
    end = add_reasons(text, end, refusals);
    end = add_line(text, end, b"labels=", tally.labels as usize);
    add_line(text, end, b"rounds=", tally.rounds as usize)
}

// No tally's text is longer: twelve numbers of at most twenty digits, and 113 bytes around them.
pub const LONGEST_TALLY: usize = 353;

// The text of a tally: its length is returned, or None where the area is too short for it.
pub fn write_tally(text: &mut [u8], tally: Tally) -> Option<usize>
    ensures { WrittenOrNone (tally_text tally) text.old text.new result }
{
    let mut scratch = [0u8; LONGEST_TALLY];
    let size = write_lines(&mut scratch, tally);
    copy(&scratch[..size], text)
}

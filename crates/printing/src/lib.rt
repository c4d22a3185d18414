// The text of an answer or a refusal, written into an area that is lent for it.
//
// Whether it fits is worked out first, so that a text that does not fit leaves the area as it was; then each line is written
// into the rest of the area behind the lines before it.
#![tactic(auto)]

mod lines;

ghost use Rattle.std.specs.Prelude.{◌≡◌, map, ◌≤◌, leb, length};
ghost use Rattle.areas.specs.Rows.{held};
ghost use Rattle.grammar.specs.Printed.{answer_text, refused_text};
ghost use Rattle.grammar.specs.Areas.{Written, WrittenOrNone};
ghost use Rattle.label_texts.specs.Packed.{name_texts, counts_of};
ghost use Rattle.printing.specs.Steps.{answer_head};

use areas::rows::labels_in;
use lines::{LONGEST_LINE, label_lines_fit, write_head, write_label_lines};
use numerals::lines::write_count_line;
use table::NAMES;

// Two numbers of at most twenty digits, and fewer than forty bytes around them.
const LONGEST_HEAD: usize = 80;

fn write_answer_head(text: &mut [u8], rounds: usize, count: usize) -> usize
    requires { length (answer_head rounds count) ≤ length text.old }
    ensures { Written (answer_head rounds count) text.old text.new result }
{
    write_head(text, b"answer=ok\n", b"rounds=", rounds, b"labels=", count)
}

// Where the longest answer would fit, no length is worked out. Else the labels are held to what the head leaves.
fn answer_fits(names: [u64; NAMES], rounds: usize, labels: &[u64], room: usize) -> bool
    ensures { result ≡ leb (length (answer_text (name_texts names) rounds (map counts_of (held labels.now)))) room }
{
    let count = labels_in(labels);
    if LONGEST_HEAD <= room && count <= (room - LONGEST_HEAD) / LONGEST_LINE {
        return true;
    }
    let mut scratch = [0u8; LONGEST_HEAD];
    let size = write_answer_head(&mut scratch, rounds, count);
    if room < size {
        return false;
    }
    let left = room - size;
    label_lines_fit(names, labels, left)
}

// The text of an answer: its length is returned, or None where the area is too short for it.
pub fn write_answer(
    text: &mut [u8],
    names: [u64; NAMES],
    rounds: usize,
    labels: &[u64],
) -> Option<usize>
    ensures { WrittenOrNone (answer_text (name_texts names) rounds (map counts_of (held labels.now))) text.old text.new result }
{
    if answer_fits(names, rounds, labels, text.len()) {
        let at = write_answer_head(text, rounds, labels_in(labels));
        return Some(at + write_label_lines(&mut text[at..], names, labels));
    }
    None
}

// A head and one number more.
const LONGEST_REFUSAL: usize = 112;

fn write_fitting_refusal(text: &mut [u8], reason: usize, line: usize, column: usize) -> usize
    requires { length (refused_text reason line column) ≤ length text.old }
    ensures { Written (refused_text reason line column) text.old text.new result }
{
    let at = write_head(
        text,
        b"answer=refused\n",
        b"reason=",
        reason,
        b"line=",
        line,
    );
    at + write_count_line(&mut text[at..], b"column=", column).unwrap()
}

// Where the longest refusal would fit, no length is worked out.
fn refusal_fits(reason: usize, line: usize, column: usize, room: usize) -> bool
    ensures { result ≡ leb (length (refused_text reason line column)) room }
{
    if LONGEST_REFUSAL <= room {
        return true;
    }
    let mut scratch = [0u8; LONGEST_REFUSAL];
    write_fitting_refusal(&mut scratch, reason, line, column) <= room
}

// The text of a refusal, by its number, its line and its column, in the same way. The number stays one: any is printed (`refused_text`).
pub fn write_refusal(text: &mut [u8], reason: usize, line: usize, column: usize) -> Option<usize>
    ensures { WrittenOrNone (refused_text reason line column) text.old text.new result }
{
    if refusal_fits(reason, line, column, text.len()) {
        return Some(write_fitting_refusal(text, reason, line, column));
    }
    None
}

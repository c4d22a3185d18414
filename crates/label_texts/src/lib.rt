// Labels, written into an area that is lent for them, whole or not at all: `name:count` for each name that occurs, joined by `.`, and
// `tau` for the empty bag.
#![tactic(auto)]

ghost use Rattle.std.specs.Prelude.{◌≡◌, ◌/◌, ◌≤◌, leb, length};
ghost use Rattle.labels.specs.Packing.{code, packed};
ghost use Rattle.table.specs.Decoded.{name_of};
ghost use Rattle.grammar.specs.Marks.{part_text, label_text};
ghost use Rattle.grammar.specs.Printed.{printed_label};
ghost use Rattle.label_texts.specs.Steps.{next_text};
ghost use Rattle.grammar.specs.Areas.{Written, WrittenOrNone};
ghost use Rattle.label_texts.specs.Packed.{name_texts, counts_of};

use labels::packing::{same, tau};
use labels::{Label, WORD_END};
use numerals::{copy, write_number};
use table::NAMES;

// What the first digit of an upper word counts where it goes down to a lower one: 2 to the power 55.
const TOP_DIGIT: u64 = 36028797018963968;

// A name has at most eight bytes.
const LONGEST_NAME: usize = 8;

// A name is packed in a word, its first byte lowest.
fn write_name(text: &mut [u8], name: u64) -> usize
    requires { length (name_of 8 name) ≤ length text.old }
    ensures { Written (name_of 8 name) text.old text.new result }
{
    let mut rest = name;
    for at in 0..LONGEST_NAME {
        if rest == 0 {
            return at;
        }
        text[at] = (rest % 256) as u8;
        rest /= 256;
    }
    LONGEST_NAME
}

fn write_part(text: &mut [u8], name: u64, times: usize) -> usize
    requires { length (part_text (name_of 8 name) times) ≤ length text.old }
    ensures { Written (part_text (name_of 8 name) times) text.old text.new result }
{
    let end = write_name(text, name);
    text[end] = b':';
    let at = end + 1;
    at + write_number(&mut text[at..], times).unwrap()
}

// The next part of a label of which so many bytes are written: a point stands before it unless it is the first.
fn write_next(text: &mut [u8], written: usize, name: u64, times: usize) -> usize
    requires { length (next_text written (name_of 8 name) times) ≤ length text.old }
    ensures { Written (next_text written (name_of 8 name) times) text.old text.new result }
{
    if times == 0 {
        return 0;
    }
    if written == 0 {
        return write_part(text, name, times);
    }
    text[0] = b'.';
    1 + write_part(&mut text[1..], name, times)
}

// What is left of a label's number once the counts of its first names are written: the digits of its number to base 32 are its counts.
fn behind(label: Label) -> Label
    ensures { result ≡ packed (code label / 32) }
{
    Label {
        lower: label.lower % WORD_END / 32 + label.upper % 32 * TOP_DIGIT,
        upper: label.upper / 32,
    }
}

// The parts of a label; past the last count that is not 0 nothing is written.
fn write_parts(text: &mut [u8], names: [u64; NAMES], label: Label) -> usize
    requires { length (label_text (name_texts names) (counts_of (code label))) ≤ length text.old }
    ensures { Written (label_text (name_texts names) (counts_of (code label))) text.old text.new result }
{
    let mut rest = label;
    let mut at = 0;
    for name in names {
        if same(rest, tau()) {
            return at;
        }
        let times = (rest.lower % 32) as usize;
        at += write_next(&mut text[at..], at, name, times);
        rest = behind(rest);
    }
    at
}

fn write_fitting_label(text: &mut [u8], names: [u64; NAMES], label: Label) -> usize
    requires { length (printed_label (name_texts names) (counts_of (code label))) ≤ length text.old }
    ensures { Written (printed_label (name_texts names) (counts_of (code label))) text.old text.new result }
{
    let size = write_parts(text, names, label);
    if size == 0 {
        return copy(b"tau", text).unwrap();
    }
    size
}

// A label has at most twenty-four parts of at most twelve bytes, the point included.
const LONGEST_LABEL: usize = 288;

// The length of a label's text, which is written on a scratch area.
pub fn label_length(names: [u64; NAMES], label: Label) -> usize
    ensures { result ≡ length (printed_label (name_texts names) (counts_of (code label))) }
{
    let mut scratch = [0u8; LONGEST_LABEL];
    write_fitting_label(&mut scratch, names, label)
}

// Where every label fits, none is measured.
fn label_fits(names: [u64; NAMES], label: Label, room: usize) -> bool
    ensures { result ≡ leb (length (printed_label (name_texts names) (counts_of (code label)))) room }
{
    if LONGEST_LABEL <= room {
        return true;
    }
    label_length(names, label) <= room
}

// A label: its length is returned, or None where the area is too short for it.
pub fn write_label(text: &mut [u8], names: [u64; NAMES], label: Label) -> Option<usize>
    ensures { WrittenOrNone (printed_label (name_texts names) (counts_of (code label))) text.old text.new result }
{
    if label_fits(names, label, text.len()) {
        return Some(write_fitting_label(text, names, label));
    }
    None
}

// The lines of a text: what was answered and two counts, then a line for each label.
ghost use Rattle.std.specs.Prelude.{◌≡◌, map, ◌≤◌, leb, length};
ghost use Rattle.meaning.specs.Bytes.{ascii};
ghost use Rattle.areas.specs.Rows.{held};
ghost use Rattle.labels.specs.Packing.{code};
ghost use Rattle.grammar.specs.Printed.{line, printed_label, label_lines};
ghost use Rattle.grammar.specs.Areas.{Written};
ghost use Rattle.label_texts.specs.Packed.{name_texts, counts_of};
ghost use Rattle.printing.specs.Steps.{head_text};

use areas::rows::{labels_in, read_label};
use label_texts::{label_length, write_label};
use labels::Label;
use numerals::copy;
use numerals::lines::write_count_line;
use table::NAMES;

// The line of an answer or a refusal, and the lines of its two numbers.
pub(crate) fn write_head(
    text: &mut [u8],
    said: &[u8],
    key: &[u8],
    n: usize,
    next_key: &[u8],
    m: usize,
) -> usize
    requires { length (head_text said.now key.now n next_key.now m) ≤ length text.old }
    ensures { Written (head_text said.now key.now n next_key.now m) text.old text.new result }
{
    let first = copy(said, text).unwrap();
    let second = first + write_count_line(&mut text[first..], key, n).unwrap();
    second + write_count_line(&mut text[second..], next_key, m).unwrap()
}

fn write_label_line(text: &mut [u8], names: [u64; NAMES], label: Label) -> usize
    requires { length (line (ascii "label=") (printed_label (name_texts names) (counts_of (code label)))) ≤ length text.old }
    ensures { Written (line (ascii "label=") (printed_label (name_texts names) (counts_of (code label)))) text.old text.new result }
{
    let at = copy(b"label=", text).unwrap();
    let end = at + write_label(&mut text[at..], names, label).unwrap();
    text[end] = b'\n';
    end + 1
}

pub(crate) fn write_label_lines(text: &mut [u8], names: [u64; NAMES], labels: &[u64]) -> usize
    requires { length (label_lines (name_texts names) (map counts_of (held labels.now))) ≤ length text.old }
    ensures { Written (label_lines (name_texts names) (map counts_of (held labels.now))) text.old text.new result }
{
    let mut at = 0;
    for i in 0..labels_in(labels) {
        let label = read_label(labels, i);
        at += write_label_line(&mut text[at..], names, label);
    }
    at
}

// `label=` before a label and the line's end behind it.
const AROUND_A_LABEL: usize = 7;

// A label of the longest, with the bytes around it.
pub(crate) const LONGEST_LINE: usize = 295;

// Where the longest lines would fit, no length is worked out. Else the room goes down line by line: the lengths of all lines
// together could pass a word.
pub(crate) fn label_lines_fit(names: [u64; NAMES], labels: &[u64], room: usize) -> bool
    ensures { result ≡ leb (length (label_lines (name_texts names) (map counts_of (held labels.now)))) room }
{
    let end = labels_in(labels);
    if end <= room / LONGEST_LINE {
        return true;
    }
    let mut left = room;
    for i in 0..end {
        let size = label_length(names, read_label(labels, i)) + AROUND_A_LABEL;
        if left < size {
            return false;
        }
        left -= size;
    }
    true
}

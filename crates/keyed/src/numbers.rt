// The lines with a number.
ghost use Rattle.std.specs.Prelude.{length};
ghost use Rattle.faults.specs.CodedFaults.{fault_of};
ghost use Rattle.grammar.specs.Forms.{count_line};
ghost use Rattle.grammar.specs.Reading.{one_line, take_number};
ghost use Rattle.words.specs.Steps.{Steps};
ghost use Rattle.keyed.specs.Ends.{placed_after};
ghost use Rattle.keyed.specs.Numbers.{between, NumberTo};

use crate::{BadLine, at_end};
use faults::{Fault, flaw_after};
use words::literals::read_literal;
use words::numbers::read_number;
use words::{Reading, Taken};

// A number after this key.
fn read_count(text: &[u8], key: &[u8]) -> Reading<u64>
    ensures { Steps (placed_after (length key.now) text.now) text.now result
        (count_line key.now text.now) }
{
    let start = read_literal(text, key)?;
    let at = start.bytes;
    at_end(text, at, read_number(&text[at..]))
}

// A number from `low` on and below `below`, after its key; the line's own number is that which a refusal gives.
pub fn take_number(
    text: &[u8],
    line: usize,
    key: &[u8],
    low: u64,
    below: u64,
    fault: Fault,
) -> Result<Taken<u64>, BadLine>
    ensures { NumberTo text.now line below result
        (one_line (take_number key.now (between low below) (fault_of fault)) line text.now) }
{
    let number = match read_count(text, key) {
        Ok(number) => number,
        Err(stuck) => {
            let flaw = flaw_after(text, Fault::Form, stuck.after);
            return Err(BadLine { flaw, line });
        }
    };
    if number.value < low || below <= number.value {
        let flaw = flaw_after(text, fault, key.len());
        return Err(BadLine { flaw, line });
    }
    Ok(number)
}

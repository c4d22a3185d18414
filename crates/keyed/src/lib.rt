// The lines that hold one thing after their key: a number or a name.
//
// A line is read from the start of what is lent, a text with other lines behind it; the LF that ends it belongs to its form.
#![tactic(auto)]

pub mod names;
pub mod numbers;

ghost use Rattle.std.specs.Prelude.{◌+◌, ◌<◌, ◌^◌, ◌≡◌};
ghost use Rattle.words.specs.Steps.{step_place};
ghost use Rattle.keyed.specs.Ends.{ended_from};

use faults::Flaw;
use words::literals::sign_at;
use words::{Reading, Stuck, Taken, shifted};

// The fault of a line with its column, and the line's number.
#[derive(Clone, Copy, Debug, PartialEq, Eq)]
pub struct BadLine {
    pub flaw: Flaw,
    pub line: usize,
}

// What was read from a place of the text on, as the last thing of its line: the step goes past the LF.
fn at_end(text: &[u8], at: usize, read: Reading<u64>) -> Reading<u64>
    requires { at + step_place read < 2 ^ 64 }
    ensures { result ≡ ended_from text.now at read }
{
    let Taken { value, bytes: next } = shifted(read, at)?;
    if !sign_at(text, next, b'\n') {
        return Err(Stuck { after: next });
    }
    Ok(Taken {
        value,
        bytes: next + 1,
    })
}

// Decimal numbers.
ghost use Rattle.std.specs.Prelude.{◌≡◌, drop};
ghost use Rattle.grammar.specs.Text.{onward, byte, number};
ghost use Rattle.words.specs.Steps.{digit_of, Steps};

use crate::literals::sign_at;
use crate::{Reading, Stuck, Taken, shifted};

// The digit at a place, if there is one.
fn digit_at(line: &[u8], at: usize) -> Option<u64>
    ensures { result ≡ digit_of (drop at line.now) }
{
    if line.len() <= at || !line[at].is_ascii_digit() {
        return None;
    }
    Some((line[at] - b'0') as u64)
}

// A decimal number: one or two digits, no leading zero.
pub fn read_number(rest: &[u8]) -> Reading<u64>
    ensures { Steps (λ n. n) rest.now result (number rest.now) }
{
    let Some(tens) = digit_at(rest, 0) else {
        return Err(Stuck { after: 0 });
    };
    if tens == 0 {
        return Ok(Taken { value: 0, bytes: 1 });
    }
    let Some(ones) = digit_at(rest, 1) else {
        return Ok(Taken {
            value: tens,
            bytes: 1,
        });
    };
    Ok(Taken {
        value: 10 * tens + ones,
        bytes: 2,
    })
}

// A number after a sign.
pub fn number_after(rest: &[u8], sign: u8) -> Reading<u64>
    ensures { Steps (λ n. n) rest.now result (onward (byte sign rest.now) (λ _ s. number s)) }
{
    if !sign_at(rest, 0, sign) {
        return Err(Stuck { after: 0 });
    }
    shifted(read_number(&rest[1..]), 1)
}

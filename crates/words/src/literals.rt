// Signs and words that must stand there as they are.
ghost use Rattle.std.specs.Prelude.{◌≡◌, drop};
ghost use Rattle.table.specs.Decoded.{name_of};
ghost use Rattle.grammar.specs.Text.{literal, starts, is_rest};
ghost use Rattle.words.specs.Steps.{Steps};

use crate::{Reading, Stuck, Taken};

// Whether this sign stands at a place of the line.
pub fn sign_at(line: &[u8], at: usize, sign: u8) -> bool
    ensures { result ≡ starts sign (drop at line.now) }
{
    at < line.len() && sign == line[at]
}

// A word that must stand there as it is.
pub fn read_literal(rest: &[u8], due: &[u8]) -> Reading<()>
    ensures { Steps (λ u. u) rest.now result (literal due.now rest.now) }
{
    for next in 0..due.len() {
        if !sign_at(rest, next, due[next]) {
            return Err(Stuck { after: next });
        }
    }
    Ok(Taken {
        value: (),
        bytes: due.len(),
    })
}

// The same, of a word that is packed as names are: the first byte lowest.
pub fn read_packed(rest: &[u8], due: u64) -> Reading<()>
    ensures { Steps (λ u. u) rest.now result (literal (name_of 8 due) rest.now) }
{
    let mut left = due;
    for next in 0..8 {
        if left == 0 {
            return Ok(Taken {
                value: (),
                bytes: next,
            });
        }
        if !sign_at(rest, next, (left % 256) as u8) {
            return Err(Stuck { after: next });
        }
        left /= 256;
    }
    Ok(Taken {
        value: (),
        bytes: 8,
    })
}

// Whether this word is all that is left of the line: LF follows it.
pub fn is_rest(rest: &[u8], due: &[u8]) -> bool
    ensures { result ≡ is_rest due.now rest.now }
{
    let Ok(word) = read_literal(rest, due) else {
        return false;
    };
    sign_at(rest, word.bytes, b'\n')
}

// Numbers of labels for hosts that stored them while a label took one word: from one word to two, which loses nothing, and back, which is
// refused where an upper word is in use. Of a lower word every bit is kept, whatever it stands for.
#![tactic(auto)]

ghost use Rattle.std.specs.Prelude.{◌≡◌, [], ◌∷◌, ◌+◌, ◌*◌, ◌/◌, ◌≤◌, length};
ghost use Rattle.areas.specs.Areas.{put};
ghost use Rattle.conversions.specs.Conversions.{widened, lowers, in_use, narrow_of, Converted, widen_answer, narrow_answer, number_of};

use labels::LABEL_WORDS;

// Why a list is not converted: an area is too short, or an upper word is in use.
#[derive(Clone, Copy, Debug, PartialEq, Eq)]
pub enum ConversionError {
    TooShort,
    UpperInUse,
}

// The two words of a number that was stored in one, the lower first.
pub fn widen(number: u64) -> [u64; 2]
    ensures { result ≡ widened (number ∷ []) }
{
    [number, 0]
}

// The one word of a label's two, if the upper one is not in use.
pub fn narrow(lower: u64, upper: u64) -> Option<u64>
    ensures { result ≡ narrow_of lower upper }
{
    if upper == 0 { Some(lower) } else { None }
}

// The words of as many numbers, from the start of an area that has room for them.
fn lay_words(numbers: &[u64], words: &mut [u64])
    requires { length numbers.now ≤ length words.old / 2 }
    ensures { words.new ≡ put (widened numbers.now) words.old }
{
    for i in 0..numbers.len() {
        words[LABEL_WORDS * i] = numbers[i];
        words[LABEL_WORDS * i + 1] = 0;
    }
}

// The same for a list of numbers: their words go to the start of an area. Where it is too short for them all it stays as it was.
pub fn widen_all(numbers: &[u64], words: &mut [u64]) -> Result<(), ConversionError>
    ensures { Converted (widen_answer numbers.now words.old) (widened numbers.now)
        words.old words.new (number_of result) }
{
    if words.len() / LABEL_WORDS < numbers.len() {
        return Err(ConversionError::TooShort);
    }
    lay_words(numbers, words);
    Ok(())
}

// Whether the upper word of a label is in use. A last word that has none beside it is no label's.
fn is_in_use(words: &[u64]) -> bool
    ensures { result ≡ in_use words.now }
{
    for i in 0..words.len() / LABEL_WORDS {
        if words[LABEL_WORDS * i + 1] != 0 {
            return true;
        }
    }
    false
}

// The lower words of as many labels, from the start of an area that has room for them.
fn lay_lowers(words: &[u64], numbers: &mut [u64])
    requires { length words.now / 2 ≤ length numbers.old }
    ensures { numbers.new ≡ put (lowers words.now) numbers.old }
{
    let end = words.len() / LABEL_WORDS;
    for i in 0..end {
        numbers[i] = words[LABEL_WORDS * i];
    }
}

// The same back: the lower words of a list of labels go to the start of an area. It stays as it was where it is too short for them all,
// where a label lacks its upper word, and where an upper word is in use.
pub fn narrow_all(words: &[u64], numbers: &mut [u64]) -> Result<(), ConversionError>
    ensures { Converted (narrow_answer words.now numbers.old) (lowers words.now)
        numbers.old numbers.new (number_of result) }
{
    if words.len() % LABEL_WORDS != 0 || numbers.len() < words.len() / LABEL_WORDS {
        return Err(ConversionError::TooShort);
    }
    if is_in_use(words) {
        return Err(ConversionError::UpperInUse);
    }
    lay_lowers(words, numbers);
    Ok(())
}

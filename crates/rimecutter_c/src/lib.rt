// The calls for C programs, which include/rimecutter.h declares.
#![tactic(auto)]

ghost use Rattle.std.specs.Prelude.{◌≡◌, [], ◌∷◌};
ghost use Rattle.grammar.specs.Areas.{Printed};
ghost use Rattle.conversions.specs.Conversions.{widened, lowers, Converted, widen_answer, narrow_answer, number_of};
ghost use Rattle.rimecutter.specs.Calls.{call, text_of, work_words, answer_words};

use conversions::{ConversionError, narrow_all, widen_all};
use rimecutter::alphabet_text;

// Writes the text of a description's answer or refusal to the start of `text` and answers its length; 0, with the area as it
// was, where the whole text does not fit.
#[unsafe(no_mangle)]
pub extern "C" fn rimecutter_alphabet(description: &[u8], text: &mut [u8]) -> usize
    ensures { Printed (text_of (call description.now work_words answer_words)) text.old text.new result }
{
    // The C interface has no None, and no text is empty.
    alphabet_text(description, text).unwrap_or(0)
}

// The number of what a conversion came to, by which C knows it.
fn number_of(outcome: Result<(), ConversionError>) -> usize
    ensures { result ≡ number_of outcome }
{
    match outcome {
        Ok(()) => 0,
        Err(ConversionError::TooShort) => 1,
        Err(ConversionError::UpperInUse) => 11,
    }
}

// The words of numbers that were stored in one word each go to the start of an area.
#[unsafe(no_mangle)]
pub extern "C" fn rimecutter_widen(numbers: &[u64], words: &mut [u64]) -> usize
    ensures { Converted (widen_answer numbers.now words.old) (widened numbers.now)
        words.old words.new result }
{
    number_of(widen_all(numbers, words))
}

// Numbers in one word each of labels in two.
#[unsafe(no_mangle)]
pub extern "C" fn rimecutter_narrow(words: &[u64], numbers: &mut [u64]) -> usize
    ensures { Converted (narrow_answer words.now numbers.old) (lowers words.now)
        numbers.old numbers.new result }
{
    number_of(narrow_all(words, numbers))
}

// The two words of one number.
#[unsafe(no_mangle)]
pub extern "C" fn rimecutter_widen_label(number: u64, words: &mut [u64]) -> usize
    ensures { Converted (widen_answer (number ∷ []) words.old) (widened (number ∷ [])) words.old words.new result }
{
    number_of(widen_all(&[number], words))
}

// The number in one word of a label's two.
#[unsafe(no_mangle)]
pub extern "C" fn rimecutter_narrow_label(lower: u64, upper: u64, number: &mut [u64]) -> usize
    ensures { Converted (narrow_answer (lower ∷ upper ∷ []) number.old) (lowers (lower ∷ upper ∷ []))
        number.old number.new result }
{
    number_of(narrow_all(&[lower, upper], number))
}

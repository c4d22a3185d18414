// The alphabet of a description: one call over its bytes and two lent areas, and the text of its answer.
#![tactic(auto)]

mod calls;

ghost use Rattle.std.specs.Prelude.{◌≡◌, length};
ghost use Rattle.grammar.specs.Areas.{WrittenOrNone};
ghost use Rattle.rimecutter.specs.Calls.{call, own_call, text_of, work_words, answer_words};
ghost use Rattle.rimecutter.specs.Answers.{Settled, TextWritten, refusal_for};
ghost use Rattle.rimecutter.specs.declared.Refusal.TheVariants.{TooLarge};

use crate::calls::{Response, is_large, respond, respond_few, respond_own};
use areas::rows::labels_in;
use faults::number_of;
use keyed::BadLine;
use labels::LABEL_WORDS;
use printing::{write_answer, write_refusal};
use reading::{ReadError, TEXT_BYTES};
use rounds::few::FEW_WORDS;
use rounds::{ANSWER_WORDS, Listed};
use sets::TooLarge;

// Why nothing is listed: refusal 1; the fault of a line with its column, and the line's number; or refusal 7.
#[derive(Clone, Copy, Debug, PartialEq, Eq)]
pub enum Refusal {
    TooLong,
    Bad(BadLine),
    TooLarge,
}

// Why a text was not read. No room is told as too large.
impl From<ReadError> for Refusal {
    ghost from_gives = { λ why e. e ≡ refusal_for why };

    fn from(why: ReadError) -> Refusal {
        match why {
            ReadError::TooLong => Refusal::TooLong,
            ReadError::NoRoom => Refusal::TooLarge,
            ReadError::Bad(bad) => Refusal::Bad(bad),
        }
    }
}

// What the rounds tell of a limit.
impl From<TooLarge> for Refusal {
    ghost from_gives = { λ why e. e ≡ TooLarge };

    fn from(_why: TooLarge) -> Refusal {
        Refusal::TooLarge
    }
}

// Works the alphabet out in two lent areas. On an answer the labels' numbers stand at the start of `answer`, ascending, two words each, the
// lower first; on a refusal `answer` is as it was. The first 8,192 words of `work` are 0 afterwards. Refusal 1, also given for areas that
// are too short, changes neither area.
pub fn alphabet(description: &[u8], work: &mut [u64], answer: &mut [u64]) -> Result<Listed, Refusal>
    ensures { Settled
        (call description.now (length work.old) (length answer.old))
        work.old work.new answer.old answer.new result }
{
    let response = respond(description, work, answer)?;
    Ok(response.listed)
}

// The refusals that are no fault of a line.
pub const TOO_LONG: usize = 1;

pub const TOO_LARGE: usize = 7;

const NO_LINE: usize = 0;

const NO_COLUMN: usize = 0;

// The text of a response, whose labels are the first words of an area. None also where the area has fewer labels than are told, as it has
// for no response that a call gives.
fn write_response(
    text: &mut [u8],
    response: Result<Response, Refusal>,
    answer: &[u64],
) -> Option<usize>
    ensures { TextWritten response answer.now text.old text.new result }
{
    match response {
        Ok(response) => {
            let names = response.names;
            let Listed { rounds, labels } = response.listed;
            if labels_in(answer) < labels {
                return None;
            }
            write_answer(text, names, rounds, &answer[..LABEL_WORDS * labels])
        }
        Err(Refusal::TooLong) => write_refusal(text, TOO_LONG, NO_LINE, NO_COLUMN),
        Err(Refusal::Bad(bad)) => {
            let flaw = bad.flaw;
            write_refusal(text, number_of(flaw.fault), bad.line, flaw.column)
        }
        Err(Refusal::TooLarge) => write_refusal(text, TOO_LARGE, NO_LINE, NO_COLUMN),
    }
}

// The text of the answer, worked out in areas that are always enough.
fn text_full(description: &[u8], text: &mut [u8]) -> Option<usize>
    ensures { WrittenOrNone (text_of (own_call description.now)) text.old text.new result }
{
    let mut answer = [0u64; ANSWER_WORDS];
    let response = respond_own(description, &mut answer);
    write_response(text, response, &answer)
}

// The same, tried in small areas first. A function of its own makes the full ones, so that they are made only where they are needed.
fn text_few(description: &[u8], text: &mut [u8]) -> Option<usize>
    ensures { WrittenOrNone (text_of (own_call description.now)) text.old text.new result }
{
    let mut answer = [0u64; FEW_WORDS];
    let response = respond_few(description, &mut answer);
    if is_large(&response) {
        return text_full(description, text);
    }
    write_response(text, response, &answer)
}

// A text of more bytes mostly has more terms than small areas have room for.
const MANY_BYTES: usize = 1024;

// The text of the answer, with areas of the call's own: whole, or None where it does not fit. As two ways lead to the full areas,
// the compiler keeps them in a frame of their own: in the frame of this function their pages would be touched by every call.
pub fn alphabet_text(description: &[u8], text: &mut [u8]) -> Option<usize>
    ensures { WrittenOrNone (text_of (call description.now work_words answer_words)) text.old text.new result }
{
    if TEXT_BYTES < description.len() {
        return write_refusal(text, TOO_LONG, NO_LINE, NO_COLUMN);
    }
    if MANY_BYTES < description.len() {
        return text_full(description, text);
    }
    text_few(description, text)
}

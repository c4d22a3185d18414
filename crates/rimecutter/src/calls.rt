// From the bytes of a description to the answer, with the names that it is printed with.
ghost use Rattle.std.specs.Prelude.{◌≡◌, ◌≤◌, length};
ghost use Rattle.rimecutter.specs.Calls.{call, own_call, too_short, work_words, answer_words};
ghost use Rattle.rimecutter.specs.Answers.{answer_in, is_large, RespondedFew, RespondedOwn, Cleared, Responded};

use crate::Refusal;
use areas::clear;
use reading::read_description;
use rounds::few::{FEW_TERMS, alphabet_of_few};
use rounds::own::alphabet_in_own;
use rounds::{ANSWER_WORDS, Listed, WORK_WORDS};
use table::{LIST_WORDS, LISTS_WORDS, NAMES, TABLE_WORDS, names_by_value};

// What is listed, with the names of the description, packed in words.
#[derive(Clone, Copy)]
pub struct Response {
    pub listed: Listed,
    pub names: [u64; NAMES],
}

// Refusal 1 for the areas.
fn too_short(work: usize, answer: usize) -> bool
    ensures { result ≡ too_short work answer }
{
    work < WORK_WORDS || answer < ANSWER_WORDS
}

// The words of the lists of few terms.
const FEW_LISTS_WORDS: usize = LIST_WORDS * FEW_TERMS;

// The call in small areas of its own, which most descriptions need no more than. An area is filled with zeros when it is made: these are
// tried first to spare that of large ones. Too large is told also where there was no room in them: then nothing is said, and the answer
// area is as it was.
pub fn respond_few(description: &[u8], answer: &mut [u64]) -> Result<Response, Refusal>
    ensures { RespondedFew (own_call description.now) answer.old answer.new result }
{
    let mut table = [0u64; TABLE_WORDS];
    let mut lists = [0u64; FEW_LISTS_WORDS];
    let mut listed = [0u64; LIST_WORDS];
    let order = read_description(description, &mut table, &mut lists, &mut listed)?;
    let found = alphabet_of_few(&table, &lists, order, &listed, answer)?;
    Ok(Response {
        listed: found,
        names: names_by_value(&table),
    })
}

// The call in areas of its own that are always enough. The rounds have the answer area for themselves until the labels are listed: what
// it held before is lost.
pub fn respond_own(description: &[u8], answer: &mut [u64]) -> Result<Response, Refusal>
    requires { answer_words ≤ length answer.old }
    ensures { RespondedOwn (own_call description.now) answer.new result }
{
    let mut table = [0u64; TABLE_WORDS];
    let mut lists = [0u64; LISTS_WORDS];
    let mut listed = [0u64; LIST_WORDS];
    let order = read_description(description, &mut table, &mut lists, &mut listed)?;
    let found = alphabet_in_own(&table, &lists, order, &listed, answer)?;
    Ok(Response {
        listed: found,
        names: names_by_value(&table),
    })
}

// The same with a work area that is lent. It starts from the text again: what a try in small areas has read is lost with them.
pub fn respond_full(
    description: &[u8],
    work: &mut [u64],
    answer: &mut [u64],
) -> Result<Response, Refusal>
    requires { (work_words ≤ length work.old) × (answer_words ≤ length answer.old) }
    ensures { Responded (own_call description.now)
        work.old work.new answer.old answer.new result }
{
    let mut table = [0u64; TABLE_WORDS];
    let mut lists = [0u64; LISTS_WORDS];
    let mut listed = [0u64; LIST_WORDS];
    let order = match read_description(description, &mut table, &mut lists, &mut listed) {
        Ok(order) => order,
        Err(why) => return cleared(Err(Refusal::from(why)), work),
    };
    let found = rounds::alphabet(&table, &lists, order, &listed, work, answer)?;
    Ok(Response {
        listed: found,
        names: names_by_value(&table),
    })
}

// Whether nothing is told in small areas.
pub fn is_large(tried: &Result<Response, Refusal>) -> bool
    ensures { result ≡ is_large (answer_in tried.now) }
{
    match tried {
        Err(Refusal::TooLarge) => true,
        _ => false,
    }
}

// What is told without the work area: it is cleared, except for refusal 1.
fn cleared(r: Result<Response, Refusal>, work: &mut [u64]) -> Result<Response, Refusal>
    ensures { Cleared r work.old work.new result }
{
    if let Err(Refusal::TooLong) = r {
        return r;
    }
    clear(work, WORK_WORDS);
    r
}

// The call, with the names that its answer is printed with. Refusal 1 comes first and touches no area; after it the first 8,192 words
// of the work area are 0, whatever is answered.
pub fn respond(
    description: &[u8],
    work: &mut [u64],
    answer: &mut [u64],
) -> Result<Response, Refusal>
    ensures { Responded
        (call description.now (length work.old) (length answer.old))
        work.old work.new answer.old answer.new result }
{
    if too_short(work.len(), answer.len()) {
        return Err(Refusal::TooLong);
    }
    let tried = respond_few(description, answer);
    if is_large(&tried) {
        return respond_full(description, work, answer);
    }
    cleared(tried, work)
}

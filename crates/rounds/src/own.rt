// The alphabet worked out in areas that are always enough and that nobody is lent: nothing in them is cleared afterwards.
ghost use Rattle.rounds.specs.Alphabets.{AnsweredOwn};

use crate::listing::cut_to;
use crate::{ANSWER_WORDS, Listed, WORK_WORDS};
use extents::{labels_of, part_at};
use sets::TooLarge;
use stability::NEWS_ROW;
use stability::running::run;
use table::{Order, TERMS, root_of};

// The numbers that say where the sets of 96 terms stand and where their half ends, and the words of as many labels as all sets may have
// together.
const SETS_ROW: usize = 194;

const LOG_WORDS: usize = 4096;

// Until the alphabet is listed the answer area serves the rounds: what it held before is lost.
pub fn alphabet_in_own(
    table: &[u64],
    lists: &[u64],
    order: Order,
    listed: &[u64],
    answer: &mut [u64],
) -> Result<Listed, TooLarge>
    ensures { AnsweredOwn table.now lists.now order listed.now answer.old answer.new result }
{
    if answer.len() < ANSWER_WORDS {
        return Err(TooLarge);
    }
    let mut slots = [0u64; TERMS];
    let mut sets = [0usize; SETS_ROW];
    let mut news = [0usize; NEWS_ROW];
    let mut work = [0u64; WORK_WORDS];
    let mut log = [0u64; LOG_WORDS];
    let rounds = run(
        table, lists, &mut slots, &mut sets, &mut news, &mut work, &mut log, answer,
    )?;
    let set = labels_of(&work, part_at(&sets, root_of(table)));
    let labels = cut_to(order, listed, set, answer);
    Ok(Listed { rounds, labels })
}

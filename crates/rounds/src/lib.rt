// The alphabet of a table: the root's set, worked out round by round in a lent work area, cut to the order.
#![tactic(auto)]

pub mod few;
mod listing;
pub mod own;

ghost use Rattle.rounds.specs.Alphabets.{Answered};

use crate::listing::cut_to;
use areas::clear;
use areas::rows::labels_in;
use extents::labels_of;
use labels::LABEL_WORDS;
use parts::Part;
use sets::TooLarge;
use stability::until_stable;
use table::Order;

// The words that are used of the work area, and the words that the answer may take.
pub const WORK_WORDS: usize = stability::WORK_WORDS;

pub const ANSWER_WORDS: usize = 2048;

// The round count, and how many labels are listed.
#[derive(Clone, Copy, Debug, PartialEq, Eq)]
pub struct Listed {
    pub rounds: usize,
    pub labels: usize,
}

// The alphabet of the description that a table and its lists hold, cut to an order whose labels are the first of words of its own. A
// table that holds no legal description gets some answer: of it no more is promised than that there is one. The rounds leave the
// root's set alone in the work area, so that clearing the set clears the area.
pub fn alphabet(
    table: &[u64],
    lists: &[u64],
    order: Order,
    listed: &[u64],
    work: &mut [u64],
    answer: &mut [u64],
) -> Result<Listed, TooLarge>
    ensures { Answered table.now lists.now order listed.now
        work.old answer.old work.new answer.new result }
{
    if answer.len() < ANSWER_WORDS {
        return Err(TooLarge);
    }
    let found = until_stable(table, lists, work)?;
    let set = labels_of(
        work,
        Part {
            from: 0,
            to: found.labels,
        },
    );
    let used = LABEL_WORDS * labels_in(set);
    let labels = cut_to(order, listed, set, answer);
    clear(work, used);
    Ok(Listed {
        rounds: found.rounds,
        labels,
    })
}

// The rounds of a description: the sets of all terms grow in lent areas, round after round, until nothing is new in the bodies of
// equations or a limit is passed.
#![tactic(auto)]

pub mod running;
mod settling;
mod stages;

ghost use Rattle.stability.specs.Endings.{Reached};

use crate::running::run;
use crate::settling::conclude;
use parts::MOST_WORDS;
use sets::TooLarge;
use table::{TERMS, root_of};

// The words that are used of the work area.
pub const WORK_WORDS: usize = 8192;

// The numbers that say where the sets of 96 terms stand and where their half ends; and those that say where what is new in them and in
// 16 equations does.
const SETS_ROW: usize = 194;

pub const NEWS_ROW: usize = 224;

// How many labels all sets may have together.
pub const TOTAL_LABELS: usize = 2048;

// The words of as many labels.
const TOTAL_WORDS: usize = 4096;

// The number of the stable round, and how many labels the root's set has.
#[derive(Clone, Copy, Debug, PartialEq, Eq)]
pub struct Found {
    pub rounds: usize,
    pub labels: usize,
}

// The rounds of the description that a table and its lists hold, in areas that are always enough: the log has room for as many labels
// as all sets may have together, and what a term is given for as many as one set may. The root's set is left at the start of the work
// area and every other word that is used is 0. A table that holds no legal description gets some answer: of it no more is promised
// than that there is one.
pub fn until_stable(table: &[u64], lists: &[u64], work: &mut [u64]) -> Result<Found, TooLarge>
    ensures { Reached table.now lists.now work.old work.new result }
{
    if work.len() < WORK_WORDS {
        return Err(TooLarge);
    }
    let mut slots = [0u64; TERMS];
    let mut sets = [0usize; SETS_ROW];
    let mut news = [0usize; NEWS_ROW];
    let mut log = [0u64; TOTAL_WORDS];
    let mut out = [0u64; MOST_WORDS];
    let last = run(
        table,
        lists,
        &mut slots,
        &mut sets,
        &mut news,
        &mut work[..WORK_WORDS],
        &mut log,
        &mut out,
    );
    conclude(last, &sets, root_of(table), work)
}

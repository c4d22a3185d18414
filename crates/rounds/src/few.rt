// The alphabet of a small description, in small areas. An area is filled with zeros when it is made, and a small description needs
// little of it: filling areas that are always enough took a fifth of its time. So these are tried first. They are to be small, since
// what a try in vain has worked out is lost.
ghost use Rattle.rounds.specs.Alphabets.{AnsweredFew};

use crate::Listed;
use crate::listing::cut_to;
use extents::{labels_of, part_at};
use sets::TooLarge;
use stability::NEWS_ROW;
use stability::running::run;
use table::{Order, root_of};

// Descriptions of more terms mostly have more labels than there is room for.
pub const FEW_TERMS: usize = 16;

// The numbers that say where the sets of that many terms stand, and where their half ends.
const FEW_ROW: usize = 34;

// The words of as many labels as all sets may have together, which are 96; and of two halves, each with room for that many.
pub const FEW_WORDS: usize = 192;

const FEW_HALVES: usize = 384;

// That the alphabet is too large means no more here than that there was no room: then nothing is written.
pub fn alphabet_of_few(
    table: &[u64],
    lists: &[u64],
    order: Order,
    listed: &[u64],
    answer: &mut [u64],
) -> Result<Listed, TooLarge>
    ensures { AnsweredFew table.now lists.now order listed.now answer.old answer.new result }
{
    if answer.len() < FEW_WORDS {
        return Err(TooLarge);
    }
    let mut slots = [0u64; FEW_TERMS];
    let mut sets = [0usize; FEW_ROW];
    let mut news = [0usize; NEWS_ROW];
    let mut work = [0u64; FEW_HALVES];
    let mut log = [0u64; FEW_WORDS];
    let mut out = [0u64; FEW_WORDS];
    let rounds = run(
        table, lists, &mut slots, &mut sets, &mut news, &mut work, &mut log, &mut out,
    )?;
    let set = labels_of(&work, part_at(&sets, root_of(table)));
    let labels = cut_to(order, listed, set, answer);
    Ok(Listed { rounds, labels })
}

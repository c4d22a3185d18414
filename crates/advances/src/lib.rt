// A term in a round: where something is new in what its set is made of, its new labels are logged and go into its set.
#![tactic(auto)]

mod keeping;

ghost use Rattle.std.specs.Prelude.{◌≡◌};
ghost use Rattle.areas.specs.Rows.{held};
ghost use Rattle.slots.specs.Packing.{word_term};
ghost use Rattle.shapes.specs.Shaping.{shape_for};
ghost use Rattle.advances.specs.Advances.{Advanced};

use crate::keeping::keep_new;
use arrivals::arriving::arrive;
use arrivals::looking::is_quiet;
use extents::{labels_of, set_part};
use parts::Part;
use sets::TooLarge;
use shapes::Shape;
use shapes::shaping::shape_of;
use slots::packing::unpack;

// The shape of the n-th term, by its slot of the table.
fn shape_in(slot: u64, n: usize) -> Shape
    ensures { result ≡ shape_for (word_term n slot) }
{
    shape_of(unpack(slot, n))
}

// The n-th of so many terms, whose slot of the table is given. Where the log then ends is returned, or that a limit is passed.
pub fn advance(
    slot: u64,
    lists: &[u64],
    terms: usize,
    n: usize,
    sets: &mut [usize],
    news: &mut [usize],
    work: &mut [u64],
    log: &mut [u64],
    end: usize,
    out: &mut [u64],
) -> Result<usize, TooLarge>
    ensures { Advanced (word_term n slot) lists.now terms n end
        sets.old news.old (held work.old) (held log.old) (held out.old)
        sets.new news.new (held work.new) (held log.new) (held out.new) result }
{
    let shape = shape_in(slot, n);
    if is_quiet(shape, sets, news, n) {
        set_part(news, n, Part { from: end, to: end });
        return Ok(end);
    }
    let count = arrive(shape, lists, work, sets, log, news, out)?;
    let made = labels_of(out, Part { from: 0, to: count });
    keep_new(terms, n, made, sets, news, work, log, end)
}

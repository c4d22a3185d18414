// Where the sets of terms stand while they grow. They stand in one half of the work area in the order of the terms, with room
// behind each, and stay where they are until one has no room behind it. Then all are laid anew in the other half, each with the
// same room behind it. Where each stands is kept in a row of parts; the part after the last begins where the half ends.
#![tactic(auto)]

mod laying;
mod weaving;

ghost use Rattle.std.specs.Prelude.{◌≡◌, ◌+◌, ◌-◌};
ghost use Rattle.areas.specs.Rows.{held};
ghost use Rattle.extents.specs.Extents.{part_at};
ghost use Rattle.layout.specs.Layout.{Grows};
ghost use Rattle.layout.specs.Laying.{WovenInto};

use crate::laying::lay_anew;
use crate::weaving::put_between;
use areas::rows::labels_in;
use extents::{part_at, set_part};
use parts::Part;

// How much room there is behind the set of a term.
fn room_behind(sets: &[usize], n: usize) -> usize
    ensures { result ≡ (part_at sets.now (n + 1)).from - (part_at sets.now n).to }
{
    if sets.len() <= n {
        return 0;
    }
    part_at(sets, n + 1)
        .from
        .saturating_sub(part_at(sets, n).to)
}

// The labels of a set are woven into those that stand for a term.
fn weave_into(work: &mut [u64], sets: &mut [usize], n: usize, news: &[u64])
    ensures { WovenInto n (held news.now) sets.old (held work.old)
        sets.new (held work.new) }
{
    let set = part_at(sets, n);
    let end = labels_in(work);
    let count = labels_in(news);
    if set.to < set.from || end < set.to || end - set.to < count {
        return;
    }
    put_between(work, set.from, set.to, news);
    set_part(
        sets,
        n,
        Part {
            from: set.from,
            to: set.to + count,
        },
    );
}

// New labels go into the set of a term; with them the sets of so many terms have so many labels together.
pub fn grow(
    work: &mut [u64],
    sets: &mut [usize],
    terms: usize,
    n: usize,
    total: usize,
    news: &[u64],
)
    ensures { Grows terms n total (held news.now) sets.old (held work.old)
        sets.new (held work.new) }
{
    let count = labels_in(news);
    if room_behind(sets, n) < count {
        lay_anew(work, sets, terms, n, total, count);
    }
    weave_into(work, sets, n, news);
}

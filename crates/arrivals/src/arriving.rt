// What the new labels of a term's operands give.
ghost use Rattle.std.specs.Prelude.{[]};
ghost use Rattle.areas.specs.Rows.{held};
ghost use Rattle.sets.specs.Building.{GrownAt};
ghost use Rattle.extents.specs.Extents.{words_in, at_start};
ghost use Rattle.arrivals.specs.Arriving.{Arrives, labels_of, sums_new, union_new, two_new};

use crate::news_of;
use areas::rows::labels_in;
use extents::{at_start, is_empty, labels_of, part_at};
use merging::joining::{copy_of, union_of};
use operators::through;
use parts::Part;
use sets::TooLarge;
use sets::inserting::enter;
use shapes::Shape;
use sums::add_sums;

// The new labels of a set, as they are.
fn copied(log: &[u64], part: Part, out: &mut [u64]) -> Result<usize, TooLarge>
    ensures { GrownAt (at_start 0) (λ room. union_new room (words_in part (held log.now)) [])
        (held out.old) (held out.new) result }
{
    copy_of(log, part, out)
}

// The new labels of two sets, of which one mostly has none.
fn joined(log: &[u64], left: Part, right: Part, out: &mut [u64]) -> Result<usize, TooLarge>
    ensures { GrownAt (at_start 0)
        (λ room. union_new room (words_in left (held log.now)) (words_in right (held log.now)))
        (held out.old) (held out.new) result }
{
    if is_empty(right) {
        return copied(log, left, out);
    }
    if is_empty(left) {
        return copied(log, right, out);
    }
    union_of(log, left, right, out)
}

// Every sum of labels of two sets of which one is new. Where all labels of the first set are new, those of the second need not be
// gone through once more.
fn add_new_sums(
    work: &[u64],
    sets: &[usize],
    log: &[u64],
    news: &[usize],
    t: usize,
    u: usize,
    out: &mut [u64],
    len: usize,
) -> Result<usize, TooLarge>
    ensures { GrownAt (at_start len) (λ room. sums_new room
        (labels_of news.now (held log.now) t) (labels_of sets.now (held work.now) t)
        (labels_of news.now (held log.now) u) (labels_of sets.now (held work.now) u))
        (held out.old) (held out.new) result }
{
    let new = labels_of(log, part_at(news, t));
    let all = labels_of(work, part_at(sets, t));
    let count = add_sums(new, labels_of(work, part_at(sets, u)), out, len)?;
    if labels_in(new) == labels_in(all) {
        return Ok(count);
    }
    add_sums(labels_of(log, part_at(news, u)), all, out, count)
}

// The new labels of two sets, and if they are asked for every sum with one of them.
fn of_two(
    work: &[u64],
    sets: &[usize],
    log: &[u64],
    news: &[usize],
    t: usize,
    u: usize,
    sums: bool,
    out: &mut [u64],
) -> Result<usize, TooLarge>
    ensures { GrownAt (at_start 0) (λ room. two_new sums room
        (labels_of news.now (held log.now) t) (labels_of sets.now (held work.now) t)
        (labels_of news.now (held log.now) u) (labels_of sets.now (held work.now) u))
        (held out.old) (held out.new) result }
{
    let count = joined(log, part_at(news, t), part_at(news, u), out)?;
    if sums {
        add_new_sums(work, sets, log, news, t, u, out, count)
    } else {
        Ok(count)
    }
}

// What is given for a term, by its shape.
pub fn arrive(
    shape: Shape,
    lists: &[u64],
    work: &[u64],
    sets: &[usize],
    log: &[u64],
    news: &[usize],
    out: &mut [u64],
) -> Result<usize, TooLarge>
    ensures { Arrives shape lists.now (held work.now) sets.now (held log.now) news.now
        (held out.old) (held out.new) result }
{
    match shape {
        Shape::Empty => Ok(0),
        Shape::Leaf(label) => enter(out, at_start(0), label),
        Shape::Body(e) => copied(log, part_at(news, news_of(e)), out),
        Shape::One(t) => copied(log, part_at(news, t), out),
        Shape::Two(t, u, sums) => of_two(work, sets, log, news, t, u, sums, out),
        Shape::Joint(t, u) => add_new_sums(work, sets, log, news, t, u, out, 0),
        Shape::Through(o, t) => through(
            lists,
            o,
            labels_of(log, part_at(news, t)),
            labels_of(work, part_at(sets, t)),
            out,
        ),
    }
}

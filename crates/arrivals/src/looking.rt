// Whether a term must be looked at: there is something new in what its set is made of.
ghost use Rattle.std.specs.Prelude.{◌≡◌, ◌&&◌};
ghost use Rattle.extents.specs.Extents.{part_at, is_empty};
ghost use Rattle.arrivals.specs.Looking.{quiet};

use crate::news_of;
use extents::{is_empty, part_at};
use shapes::Shape;

// Whether nothing is new in either of two sets.
fn both_quiet(news: &[usize], t: usize, u: usize) -> bool
    ensures { result ≡ is_empty (part_at news.now t) && is_empty (part_at news.now u) }
{
    if is_empty(part_at(news, t)) {
        is_empty(part_at(news, u))
    } else {
        false
    }
}

// Whether nothing can be new in the set of a term. A label by itself is new once: when its set is empty.
pub fn is_quiet(shape: Shape, sets: &[usize], news: &[usize], n: usize) -> bool
    ensures { result ≡ quiet sets.now news.now n shape }
{
    match shape {
        Shape::Empty => true,
        Shape::Leaf(_) => !is_empty(part_at(sets, n)),
        Shape::Body(e) => is_empty(part_at(news, news_of(e))),
        Shape::One(t) => is_empty(part_at(news, t)),
        Shape::Two(t, u, _) => both_quiet(news, t, u),
        Shape::Joint(t, u) => both_quiet(news, t, u),
        Shape::Through(_, t) => is_empty(part_at(news, t)),
    }
}

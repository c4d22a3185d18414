// The thirteen kinds of a term come to seven shapes.
ghost use Rattle.std.specs.Prelude.{◌≡◌};
ghost use Rattle.shapes.specs.Shaping.{shape_for};

use crate::Shape;
use labels::bags::single;
use labels::packing::tau;
use slots::Term;

// The shape of a term.
pub fn shape_of(term: Term) -> Shape
    ensures { result ≡ shape_for term }
{
    match term {
        Term::Delta => Shape::Empty,
        Term::Tau => Shape::Leaf(tau()),
        Term::Act(a) => Shape::Leaf(single(a as u64)),
        Term::Ref(e) => Shape::Body(e),
        Term::Sum(t) => Shape::One(t),
        Term::Cond(t) => Shape::One(t),
        Term::Choice(t, u) => Shape::Two(t, u, false),
        Term::IfElse(t, u) => Shape::Two(t, u, false),
        Term::Seq(t, u) => Shape::Two(t, u, false),
        Term::Merge(t, u) => Shape::Two(t, u, true),
        Term::LMerge(t, u) => Shape::Two(t, u, true),
        Term::Sync(t, u) => Shape::Joint(t, u),
        Term::Wrap(o, t) => Shape::Through(o, t),
    }
}

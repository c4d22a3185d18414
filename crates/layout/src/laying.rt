// All sets laid anew.
ghost use Rattle.std.specs.Prelude.{◌≡◌, ◌⊎◌, ◌+◌, ◌^◌, ◌≤◌, ◌<◌, eqb, length};
ghost use Rattle.meaning.specs.Rounds.{pick};
ghost use Rattle.areas.specs.Rows.{held};
ghost use Rattle.parts.specs.Parts.{laid, set_at};
ghost use Rattle.extents.specs.Extents.{part_at};
ghost use Rattle.layout.specs.Laying.{Tells, Movable, Moved, Free, Gap, RoomMade};

use areas::rows::labels_in;
use extents::{part_at, set_part};
use labels::LABEL_WORDS;
use parts::Part;

// Labels from a place on are copied to another place.
fn carry(work: &mut [u64], from: usize, to: usize, count: usize)
    requires { (from + count ≤ length (held work.old)) × (to + count ≤ length (held work.old)) }
    ensures { held work.new ≡ laid to (set_at from count (held work.old)) (held work.old) }
{
    let first = LABEL_WORDS * from;
    work.copy_within(first..first + LABEL_WORDS * count, LABEL_WORDS * to);
}

// Whether a set stands in the first so many words outside the half from `start` up to `end`, and has room there from a place on.
fn movable(set: Part, limit: usize, start: usize, end: usize, at: usize) -> bool
    ensures { Tells result (Movable start end at set limit) }
{
    if set.to < set.from {
        return false;
    }
    if limit < set.to {
        return false;
    }
    if end < at {
        return false;
    }
    if end - at < set.to - set.from {
        return false;
    }
    set.to <= start || end <= set.from
}

// The set of a term is moved to a place in that half if it can be. The answer is where it ends then, or where the half ends.
fn move_set(
    work: &mut [u64],
    sets: &mut [usize],
    t: usize,
    start: usize,
    end: usize,
    at: usize,
) -> usize
    requires { (start ≤ at) × (start ≤ end) × (end ≤ length (held work.old)) }
    ensures { Moved t start end at sets.old (held work.old) sets.new (held work.new) result }
{
    let set = part_at(sets, t);
    if !movable(set, labels_in(work), start, end, at) {
        return end;
    }
    let to = at + (set.to - set.from);
    carry(work, set.from, at, set.to - set.from);
    set_part(sets, t, Part { from: at, to });
    to
}

// Where the half begins in which the sets of so many terms do not stand.
fn free_half(sets: &[usize], terms: usize, half: usize) -> usize
    ensures { Free half (part_at sets.now terms).from result }
{
    if part_at(sets, terms).from <= half {
        half
    } else {
        0
    }
}

// How much room each of so many sets finds behind it in a half, if they have so many labels together.
fn gap_behind(half: usize, total: usize, terms: usize) -> usize
    ensures { Gap half total terms result }
{
    if half < total || terms == 0 {
        return 0;
    }
    (half - total) / terms
}

// How much room there is behind one of them: more behind the n-th.
fn room_after(t: usize, n: usize, gap: usize, more: usize) -> usize
    requires { gap + more < 2 ^ 64 }
    ensures { result ≡ gap + pick (eqb t n) more 0 }
{
    if t == n {
        return gap + more;
    }
    gap
}

// The sets are laid one behind the other in the half where they do not stand, with the same room behind each, and behind one of
// them room for so many more.
pub fn lay_anew(
    work: &mut [u64],
    sets: &mut [usize],
    terms: usize,
    n: usize,
    total: usize,
    more: usize,
)
    requires { more < 2 ^ 60 }
    ensures { RoomMade terms n total more sets.old (held work.old) sets.new (held work.new) }
{
    let half = labels_in(work) / 2;
    let gap = gap_behind(half, total, terms);
    let start = free_half(sets, terms, half);
    let end = start + half;
    let mut at = start;
    for t in 0..terms {
        at = move_set(work, sets, t, start, end, at) + room_after(t, n, gap, more);
    }
    set_part(sets, terms, Part { from: end, to: end });
}

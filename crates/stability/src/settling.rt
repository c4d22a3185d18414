// What is left of the last round: the root's set at the start of the work area.
ghost use Rattle.std.specs.Prelude.{◌≤◌, length};
ghost use Rattle.extents.specs.Extents.{part_at};
ghost use Rattle.keeping.specs.Settling.{whole};
ghost use Rattle.stability.specs.Settling.{Concluded};

use crate::{Found, WORK_WORDS};
use areas::clear;
use extents::part_at;
use keeping::settle;
use sets::TooLarge;

// What the last round came to: the root's set left alone, or nothing where a limit is passed.
pub fn conclude(
    last: Result<usize, TooLarge>,
    sets: &[usize],
    root: usize,
    work: &mut [u64],
) -> Result<Found, TooLarge>
    requires { whole ≤ length work.old }
    ensures { Concluded last (part_at sets.now root) work.old work.new result }
{
    let Ok(rounds) = last else {
        clear(work, WORK_WORDS);
        return Err(TooLarge);
    };
    let labels = settle(work, part_at(sets, root));
    Ok(Found { rounds, labels })
}

// Round after round, until nothing is new in the bodies of equations or a limit is passed.
ghost use Rattle.std.specs.Prelude.{◌≤◌, length};
ghost use Rattle.areas.specs.Rows.{held};
ghost use Rattle.stability.specs.Stages.{LastMade};

use courses::{course, hand_on};
use sets::TooLarge;

// How many rounds are enough: a round that is not stable logs a label at least, and there are at most 2,048.
const MOST_ROUNDS: usize = 2049;

// Before the first round the rows of parts stand for empty sets, and nothing is logged. Where the sets stand after the last is left in
// `sets`. How many labels all sets may have together is how many the log holds.
pub fn turn_on(
    slots: &[u64],
    lists: &[u64],
    bodies: &[u64],
    sets: &mut [usize],
    news: &mut [usize],
    work: &mut [u64],
    log: &mut [u64],
    out: &mut [u64],
) -> Result<usize, TooLarge>
    requires { length (held log.old) ≤ 2048 }
    ensures { LastMade slots.now lists.now bodies.now
        sets.old news.old (held work.old) (held log.old) (held out.old)
        sets.new news.new (held work.new) (held log.new) (held out.new) result }
{
    let mut end = 0;
    for k in 0..MOST_ROUNDS {
        // not by a `?`: an edit turns this answer alone
        let Ok(next) = course(slots, lists, sets, news, work, log, end, out) else {
            return Err(TooLarge);
        };
        end = next;
        if !hand_on(bodies, news) {
            return Ok(k + 1);
        }
    }
    Err(TooLarge)
}

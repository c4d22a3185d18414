// The figures with those of one verdict more, and whether they fit.
ghost use Rattle.std.specs.Prelude.{◌≡◌, true, ◌+◌, ◌<◌, get_or, set};
ghost use Rattle.tally.specs.Additions.{given, most, fits, after};
ghost use Rattle.tally.specs.Steps.{figure_of, place_or_end};

use crate::verdicts::{ANSWER, place_of};
use crate::{REFUSALS, Tally, Verdict};

// The most that a figure may reach.
const MOST: u32 = 4294967295;

// The figure that counts the verdicts with the number.
fn figure_of(tally: Tally, reason: usize) -> u32
    ensures { result ≡ figure_of tally reason }
{
    if reason == ANSWER {
        return tally.answered;
    }
    let refusals = tally.refusals;
    match place_of(reason) {
        Some(place) => refusals[place],
        None => 0,
    }
}

// Whether no figure would pass its most. Most rounds cannot: it is no sum.
pub(crate) fn has_room(tally: Tally, verdict: Verdict) -> bool
    requires { given verdict ≡ true }
    ensures { result ≡ fits (after tally verdict) }
{
    if tally.descriptions == MOST {
        return false;
    }
    if figure_of(tally, verdict.reason) == MOST {
        return false;
    }
    verdict.labels as u32 <= MOST - tally.labels
}

// One more where the figure of a refusal stands; for an answer, which has none there, they stay.
fn one_more(refusals: [u32; REFUSALS], reason: usize) -> [u32; REFUSALS]
    requires { get_or refusals (place_or_end reason) 0 < most }
    ensures { result ≡ set refusals (place_or_end reason) (get_or refusals (place_or_end reason) 0 + 1) }
{
    let mut raised = refusals;
    if let Some(place) = place_of(reason) {
        raised[place] += 1;
    }
    raised
}

pub(crate) fn counting(tally: Tally, verdict: Verdict) -> Tally
    requires is_given { given verdict ≡ true }
    requires is_within { fits (after tally verdict) ≡ true }
    ensures { result ≡ after tally verdict }
{
    let refusals = tally.refusals;
    Tally {
        descriptions: tally.descriptions + 1,
        answered: tally.answered + u32::from(verdict.reason == ANSWER),
        refusals: one_more(refusals, verdict.reason),
        labels: tally.labels + verdict.labels as u32,
        rounds: tally.rounds.max(verdict.rounds as u32),
    }
}

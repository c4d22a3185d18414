// Whether a call may give a verdict, and where the figure of its number stands.
ghost use Rattle.std.specs.Prelude.{◌≡◌};
ghost use Rattle.tally.specs.Additions.{answer_given, refusal_given, given};
ghost use Rattle.tally.specs.Steps.{place_of};

use crate::Verdict;

// The number of an answer, and its limits.
pub(crate) const ANSWER: usize = 0;

const MOST_LABELS: usize = 1024;

const MOST_ROUNDS: usize = 2049;

// Where the figure of a refusal stands, if a refusal has the number.
pub(crate) fn place_of(reason: usize) -> Option<usize>
    ensures { result ≡ place_of reason }
{
    match reason {
        1 => Some(0),
        2 => Some(1),
        3 => Some(2),
        4 => Some(3),
        5 => Some(4),
        7 => Some(5),
        10 => Some(6),
        _ => None,
    }
}

fn is_answer(verdict: Verdict) -> bool
    ensures { result ≡ answer_given verdict }
{
    if MOST_LABELS < verdict.labels {
        return false;
    }
    1 <= verdict.rounds && verdict.rounds <= MOST_ROUNDS
}

fn is_refusal(verdict: Verdict) -> bool
    ensures { result ≡ refusal_given verdict }
{
    if place_of(verdict.reason).is_none() {
        return false;
    }
    verdict.labels == 0 && verdict.rounds == 0
}

pub(crate) fn is_given(verdict: Verdict) -> bool
    ensures { result ≡ given verdict }
{
    if verdict.reason == ANSWER {
        return is_answer(verdict);
    }
    is_refusal(verdict)
}

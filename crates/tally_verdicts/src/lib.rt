// What a tally counts of what a call says.
#![tactic(auto)]

ghost use Rattle.std.specs.Prelude.{◌≡◌};
ghost use Rattle.rimecutter.specs.Answers.{verdict_for};
ghost use Rattle.tally_verdicts.specs.Verdicts.{counted};

use faults::number_of;
use rimecutter::{Refusal, TOO_LARGE, TOO_LONG};
use rounds::Listed;
use tally::Verdict;

// A refusal has neither rounds nor labels.
fn refusal(reason: usize) -> Verdict
    ensures { result ≡ record { reason = reason; rounds = 0; labels = 0 } }
{
    Verdict {
        reason,
        rounds: 0,
        labels: 0,
    }
}

// What is counted of an answer. The line and the column that are to blame are not: a tally has no place for them.
pub fn counted_of(said: Result<Listed, Refusal>) -> Verdict
    ensures { result ≡ counted (verdict_for said) }
{
    match said {
        Ok(Listed { rounds, labels }) => Verdict {
            reason: 0,
            rounds,
            labels,
        },
        Err(Refusal::TooLong) => refusal(TOO_LONG),
        Err(Refusal::Bad(bad)) => {
            let fault = bad.flaw.fault;
            refusal(number_of(fault))
        }
        Err(Refusal::TooLarge) => refusal(TOO_LARGE),
    }
}

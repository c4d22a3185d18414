// What is counted of a description: what the call says of it, added to a tally.
ghost use Rattle.std.specs.Prelude.{◌≡◌};
ghost use Rattle.rimecutter.specs.Calls.{own_call, verdict_of};
ghost use Rattle.tally.specs.Additions.{Adds};
ghost use Rattle.tally_verdicts.specs.Verdicts.{counted};

use rimecutter::alphabet;
use rounds::{ANSWER_WORDS, WORK_WORDS};
use tally::{Addition, Tally, Verdict, added};
use tally_verdicts::counted_of;

// The areas are the call's own: of the labels only the number is wanted.
fn verdict(description: &[u8]) -> Verdict
    ensures { result ≡ counted (verdict_of (own_call description.now)) }
{
    let mut work = [0u64; WORK_WORDS];
    let mut answer = [0u64; ANSWER_WORDS];
    let said = alphabet(description, &mut work, &mut answer);
    counted_of(said)
}

// A tally with a description: as it was where the description cannot be taken in.
pub fn with_description(tally: Tally, description: &[u8]) -> Addition
    ensures { Adds tally (counted (verdict_of (own_call description.now))) result.tally result.answer }
{
    added(tally, verdict(description))
}

// One running tally that every description adds to, each by the verdict that its call gave.
#![tactic(auto)]

mod figures;
mod verdicts;

ghost use Rattle.std.specs.Prelude.{◌≡◌, []};
ghost use Rattle.tally.specs.Figures.{figures_of};
ghost use Rattle.tally.specs.Additions.{Adds};

use crate::figures::{counting, has_room};
use crate::verdicts::is_given;

// What a call said, as far as it is counted: the number of its refusal, 0 for an answer; its rounds and how many labels it listed. The
// number stays one, and no enum: any is taken, and one that no call gives is left out with 18 (`given`).
#[derive(Clone, Copy, Debug, PartialEq, Eq)]
pub struct Verdict {
    pub reason: usize,
    pub rounds: usize,
    pub labels: usize,
}

// How many refusals have a figure of their own: 1 to 5, 7 and 10.
pub const REFUSALS: usize = 7;

// The figures. No figure of 32 bits can pass 4,294,967,295.
#[derive(Clone, Copy, Debug, PartialEq, Eq)]
pub struct Tally {
    pub descriptions: u32,
    pub answered: u32,
    pub refusals: [u32; REFUSALS],
    pub labels: u32,
    pub rounds: u32,
}

// Why a verdict is left out: with 18 where no call gives it, and with 17 where a figure is full.
#[derive(Clone, Copy, Debug, PartialEq, Eq)]
pub enum LeftOut {
    NoVerdict,
    Full,
}

// The tally afterwards, with what became of the verdict: it is taken in, or left out. One that is left out leaves the tally as it was, so
// the tally stands beside the Result and not in its Ok (`Adds`).
#[derive(Clone, Copy, Debug, PartialEq, Eq)]
pub struct Addition {
    pub tally: Tally,
    pub answer: Result<(), LeftOut>,
}

// The tally of no description.
pub fn empty() -> Tally
    ensures { result ≡ figures_of [] }
{
    Tally {
        descriptions: 0,
        answered: 0,
        refusals: [0u32; REFUSALS],
        labels: 0,
        rounds: 0,
    }
}

// Adds a verdict to a tally that is handed over, and hands it back.
pub fn added(tally: Tally, verdict: Verdict) -> Addition
    ensures { Adds tally verdict result.tally result.answer }
{
    if !is_given(verdict) {
        return Addition {
            tally,
            answer: Err(LeftOut::NoVerdict),
        };
    }
    if !has_room(tally, verdict) {
        return Addition {
            tally,
            answer: Err(LeftOut::Full),
        };
    }
    Addition {
        tally: counting(tally, verdict),
        answer: Ok(()),
    }
}

// Adds a verdict to the running tally.
pub fn add(tally: &mut Tally, verdict: Verdict) -> Result<(), LeftOut>
    ensures { Adds tally.old verdict tally.new result }
{
    let addition = added(*tally, verdict);
    *tally = addition.tally;
    addition.answer
}

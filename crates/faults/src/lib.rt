// The faults that a line can have, with the places where they begin. They are joined, the smaller number staying and of one number the
// first; and the entries of a list are counted with theirs.
//
// A place is told by how many bytes of the text are left there, so that it is the same in every rest of one text.
#![tactic(auto)]

ghost use Rattle.std.specs.Prelude.{◌≡◌, ◌-◌, ltb, length};
ghost use Rattle.meaning.specs.Answers.{fault_number, name, amount};
ghost use Rattle.grammar.specs.Faults.{unless, worse};
ghost use Rattle.grammar.specs.Reading.{flaw_in, at_first};
ghost use Rattle.labels.specs.Packing.{code};
ghost use Rattle.faults.specs.CodedFaults.{fault_of, found_of, flaw_of};
ghost use Rattle.faults.specs.Tallies.{empty_tally, Counted};

use labels::Label;
use labels::packing::{below, label_of, tau};

// What is wrong with a line: its form, a name in it, a number that leads nowhere, or how many there are of something or in which order
// they stand.
#[derive(Clone, Copy, Debug, PartialEq, Eq)]
pub enum Fault {
    Form,
    Name,
    Range,
    Amount,
}

// Its number in docs/FORMAT.md.
pub fn number_of(f: Fault) -> usize
    ensures { result ≡ fault_number (fault_of f) }
{
    match f {
        Fault::Form => 2,
        Fault::Name => 3,
        Fault::Range => 4,
        Fault::Amount => 5,
    }
}

// A fault with the place where it begins.
#[derive(Clone, Copy, Debug, PartialEq, Eq)]
pub struct FaultAt {
    pub fault: Fault,
    pub from: usize,
}

// Of two faults the one with the smaller number; of one number the first. It is put together anew: one of two values handed on whole is
// copied through memory, which took a third of the time of long lists.
pub fn worse_of(a: Option<FaultAt>, b: Option<FaultAt>) -> Option<FaultAt>
    ensures { found_of result ≡ worse (found_of a) (found_of b) }
{
    let Some(FaultAt { fault: x, from: p }) = a else {
        return b;
    };
    let Some(FaultAt { fault: y, from: q }) = b else {
        return Some(FaultAt { fault: x, from: p });
    };
    if number_of(x) <= number_of(y) {
        return Some(FaultAt { fault: x, from: p });
    }
    Some(FaultAt { fault: y, from: q })
}

// A fault where a test fails.
pub fn found_unless(ok: bool, fault: Fault, from: usize) -> Option<FaultAt>
    ensures { found_of result ≡ unless ok (fault_of fault) from }
{
    if ok {
        return None;
    }
    Some(FaultAt { fault, from })
}

// The fault of what is too many, too few or out of order.
pub fn amount_unless(ok: bool, from: usize) -> Option<FaultAt>
    ensures { found_of result ≡ unless ok amount from }
{
    found_unless(ok, Fault::Amount, from)
}

// The fault of a name by its number among so many names: one that was not given has no number below theirs.
pub fn name_fault(n: usize, names: usize, from: usize) -> Option<FaultAt>
    ensures { found_of result ≡ unless (ltb n names) name from }
{
    if n < names {
        return None;
    }
    Some(FaultAt {
        fault: Fault::Name,
        from,
    })
}

// A line's fault and its column, the byte where it begins, counted from 1.
#[derive(Clone, Copy, Debug, PartialEq, Eq)]
pub struct Flaw {
    pub fault: Fault,
    pub column: usize,
}

// The fault of the line with which a text begins, by its place.
pub fn flaw_in(text: &[u8], fault: Fault, from: usize) -> Flaw
    ensures { flaw_of result ≡ flaw_in text.now (fault_of fault) from }
{
    Flaw {
        fault,
        column: text.len().saturating_sub(from) + 1,
    }
}

// The same by how many bytes of the line stand before it.
pub fn flaw_after(text: &[u8], fault: Fault, bytes: usize) -> Flaw
    ensures { flaw_of result ≡ flaw_in text.now (fault_of fault) (length text.now - bytes) }
{
    flaw_in(text, fault, text.len().saturating_sub(bytes))
}

// A line that is not there, or not looked at: its form is wrong at its first byte.
pub fn first_flaw() -> Flaw
    ensures { flaw_of result ≡ at_first }
{
    Flaw {
        fault: Fault::Form,
        column: 1,
    }
}

// What the entries of a list or the parts of a label come to: their faults joined, the least number that the next one may
// have, and their weights added up, as far as the limit lets them.
#[derive(Clone, Copy)]
pub struct Tally {
    pub fault: Option<FaultAt>,
    pub floor: Label,
    pub total: u64,
}

// That of nothing.
pub fn empty_tally() -> Tally
    ensures { result ≡ empty_tally }
{
    Tally {
        fault: None,
        floor: tau(),
        total: 0,
    }
}

// The faults so far and an entry's own, and that of the order or the amount where one of the two tests fails.
fn joined(
    before: Option<FaultAt>,
    fault: Option<FaultAt>,
    ordered: bool,
    within: bool,
    from: usize,
) -> Option<FaultAt>
    ensures { found_of result
        ≡ worse (worse (found_of before) (found_of fault)) (worse (unless ordered amount from) (unless within amount from)) }
{
    let entries = worse_of(before, fault);
    if ordered && within {
        return entries;
    }
    worse_of(
        entries,
        Some(FaultAt {
            fault: Fault::Amount,
            from,
        }),
    )
}

// One entry more, by its own fault, the number by which it is ordered, which is that of a label, its weight and its place. The total stays at
// one more than the limit, and no sum leaves its words, so that any entry can be counted.
pub fn counted(
    t: Tally,
    fault: Option<FaultAt>,
    key: Label,
    weight: u64,
    limit: u64,
    from: usize,
) -> Tally
    ensures { Counted t (found_of fault) (code key) weight limit from result }
{
    let before = t.fault;
    let floor = t.floor;
    let total = t.total.saturating_add(weight);
    Tally {
        fault: joined(before, fault, !below(key, floor), total <= limit, from),
        floor: labels::bags::joined(key, label_of(1)),
        total: limit.saturating_add(1).min(total),
    }
}

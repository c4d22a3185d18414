// States whose labels a set has already: of another state with the same label, and no more left of what rules take, nothing new
// comes. The memory is a lent row of labels, three for a state: its label, what is left of it, and, as a label's number, the place
// before which rules were applied. It forgets a state when another takes its place.
#![tactic(auto)]

ghost use Rattle.std.specs.Prelude.{◌≡◌, ◌+◌, ◌*◌, ◌<◌};
ghost use Rattle.areas.specs.Rows.{held};
ghost use Rattle.labels.specs.Packing.{code};
ghost use Rattle.rules.specs.Rules.{exchanges_before};
ghost use Rattle.memory.specs.Memory.{slot_of, way_of, covers_in, holds_at, holds_from, known_in, remembered};

use areas::rows::{label_is, labels_in, read_label, write_label};
use labels::Label;
use labels::bags::as_much;
use labels::packing::{label_of, number_of, residue, same, tau};
use rules::State;

// How many words a memory takes: those of three labels for each of eight states with the same label, or with another that falls to the
// same slot.
pub const MEMORY_WORDS: usize = 24144;

const SLOTS: u64 = 503;

const WAYS: usize = 8;

// Where the states with a label are kept. Labels that differ little fall far apart.
fn slot(label: Label) -> usize
    ensures { (result ≡ slot_of (code label)) × (result < 503) }
{
    let short = residue(label) + 1000;
    ((short * short % 1000003) % SLOTS) as usize
}

// Whether of every name that one of the rules before a place takes the second label has no fewer than the first.
pub fn covers(rules: &[u64], before: usize, a: Label, b: Label) -> bool
    ensures { result ≡ covers_in (exchanges_before (held rules.now) before) (code a) (code b) }
{
    // Two places back at a time, from any place: a range of rules would have each one's place worked out anew.
    let mut i = before;
    while 2 <= i {
        i -= 2;
        if !as_much(read_label(rules, i), a, b) {
            return false;
        }
    }
    true
}

// Whether what is kept at an entry covers a state to which the rules before a place may be applied.
fn holds_at(memory: &[u64], entry: usize, rules: &[u64], before: usize, state: State) -> bool
    requires { entry < 4024 }
    ensures { result ≡ holds_at (held memory.now) (held rules.now) entry before (code state.rest) (code state.sum) }
{
    let at = 3 * entry;
    if !label_is(memory, at, state.sum) {
        return false;
    }
    if labels_in(memory) <= at + 2 {
        return false;
    }
    let place = number_of(read_label(memory, at + 2)) as usize;
    if place < before {
        return false;
    }
    if (place - before) % 2 != 0 {
        return false;
    }
    covers(rules, before, state.rest, read_label(memory, at + 1))
}

// Whether a state is known: one with the same label is kept that gives all that it would.
pub fn known(memory: &[u64], rules: &[u64], before: usize, state: State) -> bool
    ensures { result ≡ known_in (held memory.now) (held rules.now) before (code state.rest) (code state.sum) }
{
    if labels_in(memory) == 0 {
        return false;
    }
    if same(state.sum, tau()) {
        return false;
    }
    let first = WAYS * slot(state.sum);
    for way in 0..WAYS {
        if holds_at(memory, first + way, rules, before, state) {
            return true;
        }
    }
    false
}

// Keeps a state of which the set has all that comes by the rules before a place.
pub fn remember(memory: &mut [u64], before: usize, state: State)
    ensures { held memory.new ≡ remembered (held memory.old) before (code state.rest) (code state.sum) }
{
    if labels_in(memory) == 0 {
        return;
    }
    let way = slot(state.rest) % WAYS;
    let at = 3 * (WAYS * slot(state.sum) + way);
    write_label(memory, at, state.sum);
    write_label(memory, at + 1, state.rest);
    write_label(memory, at + 2, label_of(before as u64));
}

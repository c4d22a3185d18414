// Syncs of whole processes. Their sets are those of merges, since after the joint first step the two sides run on as a merge; a sync
// of multi-actions alone has its own. So before the rounds every sync of whole processes becomes a merge, in one pass over the slots.
// Operands come first, so that in the slots before a term what is built of act, tau, delta and sync only is known by its kind: a sync
// that is anything else is a merge by then.
#![tactic(auto)]

ghost use Rattle.std.specs.Prelude.{◌≡◌, length};
ghost use Rattle.syncs.specs.Merging.{multi_at, merge_in, merged_to};

use areas::word_at;
use slots::Term;
use slots::packing::{pack, unpack};

// Whether the term at a number is an act, a tau, a delta or a sync; past the slots there is a deadlock. The number of a term says only
// where its list is, so that any will do.
fn is_multi(slots: &[u64], t: usize) -> bool
    ensures { result ≡ multi_at slots.now t }
{
    match unpack(word_at(slots, t), 0) {
        Term::Delta | Term::Tau | Term::Act(_) | Term::Sync(_, _) => true,
        _ => false,
    }
}

// A slot as it stands, but a merge in place of a sync whose operands are not both multi-actions.
fn merge_in(slots: &[u64], slot: u64) -> u64
    ensures { result ≡ merge_in slots.now slot }
{
    let Term::Sync(t, u) = unpack(slot, 0) else {
        return slot;
    };
    if is_multi(slots, t) && is_multi(slots, u) {
        return slot;
    }
    pack(Term::Merge(t, u))
}

// Every sync of whole processes becomes a merge.
pub fn merge_wholes(slots: &mut [u64])
    ensures { slots.new ≡ merged_to (length slots.old) slots.old }
{
    for n in 0..slots.len() {
        slots[n] = merge_in(slots, slots[n]);
    }
}

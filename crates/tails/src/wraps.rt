// The kinds with a list: an operand, the list and the end of the line.
ghost use Rattle.std.specs.Prelude.{◌≤◌, ◌≡◌, map, length};
ghost use Rattle.table.specs.Decoded.{name_of};
ghost use Rattle.grammar.specs.Forms.{of_list};
ghost use Rattle.grammar.specs.Faults.{worse, number_fault};
ghost use Rattle.faults.specs.CodedFaults.{found_of};
ghost use Rattle.tails.specs.Lines.{LineRead};
ghost use Rattle.tails.specs.Wraps.{wrap_of, list_kind, contents, wrap_listed, wrap_term};

use crate::TermLine;
use faults::{FaultAt, worse_of};
use labels::packing::number_of;
use lists::{ListKind, Said, read_whole};
use ranges::{Bounds, left_at, number_fault};
use slots::packing::operator;
use slots::{Place, Term};
use words::literals::sign_at;
use words::numbers::number_after;
use words::{Reading, Stuck, Taken, shifted};

// What the list of a kind is of, by the kind's place.
fn list_kind(k: usize) -> ListKind
    ensures { result ≡ list_kind (wrap_of k) }
{
    match k {
        12 => ListKind::Names,
        13 => ListKind::Names,
        14 => ListKind::Pairs,
        15 => ListKind::Rules,
        _ => ListKind::Labels,
    }
}

// The fault of a list and of an operand, which begins at this place.
fn joined(said: Said, t: usize, n: usize, from: usize) -> Option<FaultAt>
    ensures { found_of result ≡ worse (found_of said.fault) (number_fault n t from) }
{
    worse_of(said.fault, number_fault(t, n, from))
}

// The term of a kind with a list, at its number, which is the list's too.
fn wrapped(k: usize, t: usize, n: usize, said: Said) -> Term
    ensures { result ≡ wrap_term k t n said }
{
    let entries = said.first;
    let place = Place {
        at: n,
        entries: number_of(entries) as usize,
    };
    Term::Wrap(operator(k, place), t)
}

// What follows the word of a kind with a list.
pub fn read_wrap(
    k: usize,
    rest: &[u8],
    names: &[u64],
    bounds: Bounds,
    store: &mut [u64],
) -> Reading<TermLine>
    requires { length names.now ≤ 24 }
    ensures { LineRead (map (name_of 8) names.now) bounds rest.now
        (of_list (contents (wrap_of k)) (wrap_listed (wrap_of k)) rest.now) store.old store.new result }
{
    let operand = number_after(rest, b' ')?;
    let after = operand.bytes;
    if !sign_at(rest, after, b' ') {
        return Err(Stuck { after });
    }
    let behind = after + 1;
    let list = read_whole(list_kind(k), &rest[behind..], names, store);
    let Taken {
        value: said,
        bytes: next,
    } = shifted(list, behind)?;
    if !sign_at(rest, next, b'\n') {
        return Err(Stuck { after: next });
    }
    let t = operand.value as usize;
    let n = bounds.term;
    let value = TermLine {
        term: wrapped(k, t, n, said),
        fault: joined(said, t, n, left_at(rest, 1)),
    };
    Ok(Taken {
        value,
        bytes: next + 1,
    })
}

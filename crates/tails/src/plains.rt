// The kinds without a list: a name, or the numbers of the operands, and the end of the line.
ghost use Rattle.std.specs.Prelude.{◌≤◌, map, length, drop};
ghost use Rattle.table.specs.Decoded.{name_of};
ghost use Rattle.table.specs.Terms.{IsPlain, bare_term};
ghost use Rattle.grammar.specs.Text.{past, onward, ended, byte, number};
ghost use Rattle.grammar.specs.Forms.{space, plain, of_name, of_one, of_two};
ghost use Rattle.words.specs.Steps.{Steps};
ghost use Rattle.tails.specs.Lines.{Storeless, Unbounded};
ghost use Rattle.ranges.specs.Ranges.{places_for};
ghost use Rattle.tails.specs.Plains.{PlainRead, made_of, plain_tail};

use crate::TermLine;
use labels::packing::number_of;
use lists::read_name;
use ranges::{Bounds, Places, left_at, range_fault};
use slots::Term;
use slots::packing::plain;
use words::literals::sign_at;
use words::numbers::number_after;
use words::{Reading, Stuck, Taken, shifted};

// A term with nothing after it, whose numbers begin at these places.
fn finish(rest: &[u8], at: usize, term: Term, places: Places, bounds: Bounds) -> Reading<TermLine>
    requires { (at ≤ length rest.now) × IsPlain term }
    ensures { PlainRead bounds rest.now
        (onward (ended (drop at rest.now)) (λ _ s. past (plain (bare_term term) (places_for places)) s)) result }
{
    if !sign_at(rest, at, b'\n') {
        return Err(Stuck { after: at });
    }
    let fault = range_fault(term, places, bounds);
    Ok(Taken {
        value: TermLine { term, fault },
        bytes: at + 1,
    })
}

// A number after a space, at a place of what is lent; the answer's place is one of that too.
fn read_operand(rest: &[u8], at: usize) -> Reading<u64>
    requires { at ≤ length rest.now }
    ensures { Steps (λ n. n) rest.now result (onward (byte space (drop at rest.now)) (λ _ s. number s)) }
{
    shifted(number_after(&rest[at..], b' '), at)
}

// One number. A kind has the same number here, by its word's place, as in the table.
fn read_one(k: usize, rest: &[u8], bounds: Bounds) -> Reading<TermLine>
    ensures { PlainRead bounds rest.now (of_one (made_of k 0) rest.now) result }
{
    let only = read_operand(rest, 0)?;
    let from = left_at(rest, 1);
    let places = Places {
        first: from,
        second: from,
    };
    let term = plain(k, 0, only.value as usize);
    finish(rest, only.bytes, term, places, bounds)
}

// Two numbers.
fn read_two(k: usize, rest: &[u8], bounds: Bounds) -> Reading<TermLine>
    ensures { PlainRead bounds rest.now (of_two (made_of k) rest.now) result }
{
    let first = read_operand(rest, 0)?;
    let second = read_operand(rest, first.bytes)?;
    let places = Places {
        first: left_at(rest, 1),
        second: left_at(rest, first.bytes + 1),
    };
    let term = plain(k, first.value as usize, second.value as usize);
    finish(rest, second.bytes, term, places, bounds)
}

// A name, whose number is the term's.
fn read_act(rest: &[u8], names: &[u64]) -> Reading<TermLine>
    ensures { Unbounded (map (name_of 8) names.now) rest.now (of_name rest.now) result }
{
    if !sign_at(rest, 0, b' ') {
        return Err(Stuck { after: 0 });
    }
    let name = shifted(read_name(&rest[1..], names), 1)?;
    if !sign_at(rest, name.bytes, b'\n') {
        return Err(Stuck { after: name.bytes });
    }
    let value = TermLine {
        term: Term::Act(number_of(name.value.first) as usize),
        fault: name.value.fault,
    };
    Ok(Taken {
        value,
        bytes: name.bytes + 1,
    })
}

// What follows the word of the kind at a place before those with a list.
pub fn read_plain(k: usize, rest: &[u8], names: &[u64], bounds: Bounds) -> Reading<TermLine>
    ensures { Storeless bounds (map (name_of 8) names.now) rest.now (plain_tail k rest.now) result }
{
    let nowhere = Places {
        first: 0,
        second: 0,
    };
    if k < 1 {
        return finish(rest, 0, Term::Delta, nowhere, bounds);
    }
    if k < 2 {
        return finish(rest, 0, Term::Tau, nowhere, bounds);
    }
    if k < 3 {
        return read_act(rest, names);
    }
    if k < 6 {
        return read_one(k, rest, bounds);
    }
    read_two(k, rest, bounds)
}

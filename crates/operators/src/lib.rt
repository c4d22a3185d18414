// Labels through an operator of a description, with its list from the terms' lists, into a set at the start of words of its own.
#![tactic(auto)]

mod exchanging;

ghost use Rattle.std.specs.Prelude.{◌≡◌, ◌≤◌};
ghost use Rattle.areas.specs.Rows.{held};
ghost use Rattle.ordering.specs.Ordering.{rules_for, list_for};
ghost use Rattle.images.specs.declared.Way.TheVariants.{Comm};
ghost use Rattle.operators.specs.Operators.{Passes, rule_list, way_for, place_for, words_for};

use crate::exchanging::{exchanges, first_rules};
use exchanges::closing::close_each;
use images::Way;
use images::imaging::add_image;
use labels::LABEL_WORDS;
use ordering::{in_order, many_choices};
use sets::TooLarge;
use slots::{Operator, Place};
use table::RULE_WORDS;
use table::lists::{label_words_of, rule_words_of, words_of};

// The rules as they are followed from some labels, in room for sixteen labels of which so many are used: in order where there is much
// to choose from, and else as they stand.
fn rules_for(labels: &[u64], list: [u64; 32], end: usize) -> [u64; 32]
    requires { end ≤ 16 }
    ensures { held result ≡ list_for (held labels.now) end (held list) }
{
    let used = LABEL_WORDS * end;
    if many_choices(labels, &list[..used]) {
        return in_order(&list[..used]);
    }
    list
}

// The rules in the order in which they are followed. No more words of them are lent than they have.
fn communicate(
    rules: &[u64],
    labels: &[u64],
    operand: &[u64],
    out: &mut [u64],
) -> Result<usize, TooLarge>
    ensures { Passes Comm (rules_for (held labels.now) (rule_list rules.now)) (held labels.now)
        (held operand.now) (held out.old) (held out.new) result }
{
    let first = first_rules(rules);
    let end = first.len() / RULE_WORDS * 2;
    let list = rules_for(labels, exchanges(first), end);
    close_each(labels, operand, &list[..LABEL_WORDS * end], out, 0)
}

// The way of an operator.
fn way_of(operator: Operator) -> Way
    ensures { result ≡ way_for operator }
{
    match operator {
        Operator::Block(_) => Way::Block,
        Operator::Hide(_) => Way::Hide,
        Operator::Rename(_) => Way::Rename,
        Operator::Comm(_) => Way::Comm,
        Operator::Allow(_) => Way::Allow,
    }
}

// Where an operator's list stands.
fn list_place(operator: Operator) -> Place
    ensures { result ≡ place_for operator }
{
    match operator {
        Operator::Block(p) => p,
        Operator::Hide(p) => p,
        Operator::Rename(p) => p,
        Operator::Comm(p) => p,
        Operator::Allow(p) => p,
    }
}

// What an operator makes of labels that are all labels of its operand or some of them.
pub fn through(
    lists: &[u64],
    operator: Operator,
    labels: &[u64],
    operand: &[u64],
    out: &mut [u64],
) -> Result<usize, TooLarge>
    ensures { Passes (way_for operator) (words_for lists.now (held labels.now) operator) (held labels.now)
        (held operand.now) (held out.old) (held out.new) result }
{
    let place = list_place(operator);
    match operator {
        Operator::Comm(_) => communicate(rule_words_of(lists, place), labels, operand, out),
        Operator::Allow(_) => add_image(
            Way::Allow,
            label_words_of(lists, place),
            labels,
            operand,
            out,
            0,
        ),
        _ => add_image(
            way_of(operator),
            words_of(lists, place),
            labels,
            operand,
            out,
            0,
        ),
    }
}

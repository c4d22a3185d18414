// The order's line, which is the last of its text. Its labels go to words of their own.
#![tactic(auto)]

ghost use Rattle.std.specs.Prelude.{◌≤◌, map, ◌≡◌, length, drop};
ghost use Rattle.table.specs.Decoded.{name_of};
ghost use Rattle.grammar.specs.Forms.{order_line};
ghost use Rattle.orderlines.specs.Orders.{OrderRead, only_these, OrderWalked, OrderEnd, order_first, order_last};

use areas::clear;
use faults::{Fault, FaultAt, first_flaw, flaw_after, flaw_in};
use keyed::BadLine;
use labels::packing::number_of;
use lists::{ListKind, read_whole};
use slots::Place;
use table::{LIST_WORDS, NAMES, Order};
use words::literals::{is_rest, read_literal, sign_at};
use words::{Reading, Stuck, Taken, shifted};

// What a line says: the order, and the fault of its labels.
#[derive(Clone, Copy)]
struct OrderSaid {
    order: Order,
    fault: Option<FaultAt>,
}

// What follows the key where it is not `all`.
fn read_labels(text: &[u8], at: usize, names: &[u64], listed: &mut [u64]) -> Reading<OrderSaid>
    requires { (at ≤ length text.now) × (length names.now ≤ 24) }
    ensures { OrderRead (map (name_of 8) names.now) text.now
        (only_these (drop at text.now)) listed.old listed.new result }
{
    let list = read_whole(ListKind::Labels, &text[at..], names, listed);
    let labels = shifted(list, at)?;
    let next = labels.bytes;
    if !sign_at(text, next, b'\n') {
        return Err(Stuck { after: next });
    }
    let said = labels.value;
    let place = Place {
        at: 0,
        entries: number_of(said.first) as usize,
    };
    let value = OrderSaid {
        order: Order::Only(place),
        fault: said.fault,
    };
    Ok(Taken {
        value,
        bytes: next + 1,
    })
}

fn read_order(text: &[u8], names: &[u64], listed: &mut [u64]) -> Reading<OrderSaid>
    requires { length names.now ≤ 24 }
    ensures { OrderRead (map (name_of 8) names.now) text.now
        (order_line text.now) listed.old listed.new result }
{
    let key = read_literal(text, b"order=")?;
    let at = key.bytes;
    if is_rest(&text[at..], b"all") {
        let value = OrderSaid {
            order: Order::All,
            fault: None,
        };
        return Ok(Taken {
            value,
            bytes: at + 4,
        });
    }
    read_labels(text, at, names, listed)
}

// The text's first line.
fn first_line(
    text: &[u8],
    line: usize,
    names: &[u64],
    listed: &mut [u64],
) -> Result<Taken<Order>, BadLine>
    requires { length names.now ≤ 24 }
    ensures { OrderWalked text.now line (order_first names.now line text.now)
        listed.old listed.new result }
{
    let read = match read_order(text, names, listed) {
        Ok(read) => read,
        Err(stuck) => {
            let flaw = flaw_after(text, Fault::Form, stuck.after);
            return Err(BadLine { flaw, line });
        }
    };
    if let Some(found) = read.value.fault {
        let flaw = flaw_in(text, found.fault, found.from);
        return Err(BadLine { flaw, line });
    }
    Ok(Taken {
        value: read.value.order,
        bytes: read.bytes,
    })
}

// The text's only line: bytes after it are a fault of the line that they begin. After the largest number no line has one.
fn only_line(
    text: &[u8],
    line: usize,
    names: &[u64],
    listed: &mut [u64],
) -> Result<Taken<Order>, BadLine>
    ensures { OrderWalked text.now line (order_last names.now line text.now)
        listed.old listed.new result }
{
    let flaw = first_flaw();
    if NAMES < names.len() {
        return Err(BadLine { flaw, line });
    }
    if line == usize::MAX {
        return Err(BadLine { flaw, line });
    }
    let last = first_line(text, line, names, listed)?;
    if last.bytes < text.len() {
        let line = line + 1;
        return Err(BadLine { flaw, line });
    }
    Ok(last)
}

// The same, with words of 0 after a bad line.
fn take_end(
    text: &[u8],
    line: usize,
    names: &[u64],
    listed: &mut [u64],
) -> Result<Taken<Order>, BadLine>
    requires { length listed.old ≤ 64 }
    ensures { OrderEnd text.now line names.now listed.old listed.new result }
{
    let last = only_line(text, line, names, listed);
    if last.is_err() {
        clear(listed, LIST_WORDS);
    }
    last
}

// An order that is all of its text, with the number of its line: its labels go to the start of the words that are lent. After a bad line
// the first 64 of these are 0. The others stay as they were, whatever the line is.
pub fn take_order(
    text: &[u8],
    line: usize,
    names: &[u64],
    listed: &mut [u64],
) -> Result<Taken<Order>, BadLine>
    ensures { OrderEnd text.now line names.now listed.old listed.new result }
{
    let end = listed.len().min(LIST_WORDS);
    take_end(text, line, names, &mut listed[..end])
}

// Runs the two sets whose costs docs/COSTS.md bounds, and writes how many labels they have: the product
// of 164 by 164 labels (sixteen dies out of eight and eight), and a label of 31 actions under 8 rules that overlap.
#![tactic(auto)]

use extents::{at_start, labels_of};
use images::Way;
use images::imaging::add_image;
use labels::bags::single;
use merging::joining::union_of;
use parts::{MOST_WORDS, Part};
use sets::TooLarge;
use sets::inserting::insert;
use std::io;
use sums::add_sums;

// How many labels a set holds; none if it would pass a limit.
fn count(answer: Result<usize, TooLarge>) -> usize {
    answer.unwrap_or(0)
}

// Twice as many dies: the labels of both, and their sums.
fn merged(dies: &[u64], len: usize, both: &mut [u64]) -> usize {
    let all = Part { from: 0, to: len };
    let count_of_one = count(union_of(dies, all, all, both));
    let labels = labels_of(dies, all);
    count(add_sums(labels, labels, both, count_of_one))
}

// A line: what is counted, and how many.
fn show(output: &impl Print, text: &str, n: usize) -> io::Result<()> {
    println!(output; "{text}{n}")
}

// The dies, from one that starts, is done or is busy up to sixteen.
fn show_dies(output: &impl Print) -> io::Result<()> {
    let mut dies = [0u64; MOST_WORDS];
    let mut twice = [0u64; MOST_WORDS];
    for n in 0..3 {
        // there is room for each
        let _ = insert(&mut dies, at_start(n), single(n as u64));
    }
    let two = merged(&dies, 3, &mut twice);
    show(output, "two=", two)?;
    let four = merged(&twice, two, &mut dies);
    show(output, "four=", four)?;
    let eight = merged(&dies, four, &mut twice);
    show(output, "eight=", eight)?;
    show(output, "sixteen=", merged(&twice, eight, &mut dies))
}

fn main(rt: HostRuntime) -> io::Result<()> {
    show_dies(&rt)?;
    // a:2>a a:2>b a:3>a a:3>b a:1.b:1>a a:1.b:1>b b:2>a b:2>b on a:31
    // the words of a label, lower and upper, stand together
    let rules = [
        2u64, 0, 1, 0, 2, 0, 32, 0, 3, 0, 1, 0, 3, 0, 32, 0, 33, 0, 1, 0, 33, 0, 32, 0, 64, 0, 1,
        0, 64, 0, 32, 0,
    ];
    let operand = [31u64, 0];
    let mut set = [0u64; MOST_WORDS];
    let made = add_image(Way::Comm, &rules, &operand, &operand, &mut set, 0);
    show(&rt, "communicated=", count(made))
}

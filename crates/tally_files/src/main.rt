// Adds the description in each file that an argument names to one tally, and writes the tally to standard output. What goes wrong with
// a file, and how far it is, is told on standard error.
#![tactic(auto)]

mod verdicts;

ghost use Rattle.std.specs.Prelude.{◌≡◌, ◌≤◌, length};

use std::env::{Env, FillError};
use std::fs::File;
use std::io;
use std::io::Read;
use std::rt::Files;
use tally::{Addition, LeftOut, Tally, empty};
use tally_texts::{LONGEST_TALLY, write_tally};
use verdicts::with_description;

// One byte more than a description may have: so many are enough to tell that it is too long.
const MOST: usize = 8193;

// So long is the longest path, with the byte behind its end.
const LONGEST_PATH: usize = 4096;

// Progress is told each hundred files.
const HUNDRED: usize = 100;

// The system's numbers of two errors: an argument that is not there, and a name that is too long.
const INVALID_ARGUMENT: i32 = 22;

const NAME_TOO_LONG: i32 = 36;

// A file that is left out, with the reason. There is nowhere to tell that it cannot be told.
fn name_left_out(told: &impl Print, path: &[u8], why: &[u8]) {
    let _ = told.write_all(path);
    let _ = told.write_all(why);
}

// The system's words for an error, which stand before its number.
fn words(error: &str) -> &str {
    match error.split_once(" (os error ") {
        Some((words, _)) => words,
        None => error,
    }
}

// A file that is left out as the system refuses it, with the system's reason.
fn fail(rt: &impl AllocGlobal, told: &impl Print, path: &[u8], error: io::Error) {
    name_left_out(told, path, b": ");
    let _ = match error.to_string(rt.alloc()) {
        Ok(text) => told.println(words(&text)),
        Err(_) => told.println(error),
    };
}

// The tally after an addition, with a word about a description that was left out. The last case never comes (proofs/Given.antt); it is
// told like the others all the same.
fn after_addition(told: &impl Print, addition: Addition, path: &[u8]) -> Tally
    ensures { result ≡ addition.tally }
{
    match addition.answer {
        Ok(()) => {}
        Err(LeftOut::Full) => name_left_out(told, path, b": the tally is full (refusal 17)\n"),
        Err(LeftOut::NoVerdict) => {
            name_left_out(told, path, b": no call gives its verdict (refusal 18)\n");
        }
    }
    addition.tally
}

// Reads until the area is full, the file ends or a read fails: how many bytes stand at its start. `alphabet` has one like it: neither
// program is a library, and none that both use reads anything.
fn read_full(file: &mut impl Read, area: &mut [u8]) -> usize
    ensures { result ≤ length area.new }
{
    let mut size = 0;
    while size < area.len() {
        match file.read(&mut area[size..]) {
            Ok(0) | Err(_) => break,
            Ok(got) => size += got,
        }
    }
    size
}

// What is left of a file behind what was read of it: how many bytes one more read gives, 0 at the end. To `read_full` a read that fails is
// an end as well, so that a part of a description would be taken for the whole, and a directory, which can be opened, for an empty one.
fn left_over(file: &mut impl Read, size: usize) -> io::Result<usize> {
    if size == MOST {
        return Ok(0);
    }
    let mut more = [0u8; 1];
    file.read(&mut more)
}

// The tally with the description in an open file, if that was read to its end.
fn with_open(
    rt: &impl AllocGlobal,
    told: &impl Print,
    tally: Tally,
    file: &mut impl Read,
    path: &[u8],
) -> Tally {
    let mut description = [0u8; MOST];
    let size = read_full(file, &mut description);
    match left_over(file, size) {
        Err(error) => {
            fail(rt, told, path, error);
            tally
        }
        Ok(0) => {
            let addition = with_description(tally, &description[..size]);
            after_addition(told, addition, path)
        }
        Ok(_) => {
            name_left_out(told, path, b": it could not be read to its end\n");
            tally
        }
    }
}

// The tally with the description in the file at a path. It is closed before the next is opened, so that any number can follow.
fn with_file(
    rt: &(impl Files + AllocGlobal),
    told: &impl Print,
    tally: Tally,
    path: &[u8],
) -> Tally {
    let Ok(name) = str::from_utf8(path) else {
        name_left_out(told, path, b": its name is not UTF-8\n");
        return tally;
    };
    match File::open(rt, name) {
        Ok(mut file) => with_open(rt, told, tally, &mut file, path),
        Err(error) => {
            fail(rt, told, path, error);
            tally
        }
    }
}

// The tally with the file that an argument names. One that is too long for a path is named as far as it goes.
fn with_argument(
    rt: &(impl Files + Env + AllocGlobal),
    told: &impl Print,
    tally: Tally,
    i: usize,
) -> Tally {
    let mut path = [0u8; LONGEST_PATH];
    let code = match rt.arg(i, &mut path) {
        Ok(length) => return with_file(rt, told, tally, &path[..length]),
        Err(FillError::TooLong) => NAME_TOO_LONG,
        Err(FillError::NotPresent) => INVALID_ARGUMENT,
    };
    fail(rt, told, &path, io::Error::from_raw_os_error(code));
    tally
}

// Some hundreds of files take a while, so whoever waits is told how far it is.
fn tell_progress(told: &impl Print, done: usize, all: usize) {
    if done % HUNDRED != 0 {
        return;
    }
    let _ = println!(told; "tally: {done} of {all} files");
}

// How many arguments there are, the program's own name among them. They are counted by hand, since the list that `std` makes of them lies
// on the heap.
fn arg_count(rt: &impl Env) -> usize {
    for i in 0..usize::MAX {
        if let Err(FillError::NotPresent) = rt.arg(i, &mut []) {
            return i;
        }
    }
    usize::MAX
}

// The tally of all files. The argument before the first is the program's own name.
fn tally_of_files(rt: &(impl Files + Env + AllocGlobal), told: &impl Print) -> Tally {
    let mut all = empty();
    let count = arg_count(rt);
    for i in 1..count {
        all = with_argument(rt, told, all, i);
        tell_progress(told, i, count - 1);
    }
    all
}

fn main(rt: HostRuntime) -> io::Result<()> {
    let mut text = [0u8; LONGEST_TALLY];
    let length = write_tally(&mut text, tally_of_files(&rt, &rt.stderr())).unwrap();
    rt.write_all(&text[..length])
}

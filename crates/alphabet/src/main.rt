// Reads a description from standard input and writes its alphabet, or the refusal, to standard output.
#![tactic(auto)]

ghost use Rattle.std.specs.Prelude.{◌≤◌, length};

use rimecutter::alphabet_text;
use std::io;
use std::io::Read;

// One byte more than a description may have: so many are enough to tell that it is too long.
const MOST: usize = 8193;

// Reads until the area is full, the input ends or a read fails: how many bytes stand at its start. `tally_files` has one like it: neither
// program is a library, and none that both use reads anything.
fn read_full(input: &mut impl Read, area: &mut [u8]) -> usize
    ensures { result ≤ length area.new }
{
    let mut size = 0;
    while size < area.len() {
        match input.read(&mut area[size..]) {
            Ok(0) | Err(_) => break,
            Ok(got) => size += got,
        }
    }
    size
}

fn main(rt: HostRuntime) -> io::Result<()> {
    let mut input = rt.stdin();
    let mut description = [0u8; MOST];
    let size = read_full(&mut input, &mut description);
    // What is left of a description that is too long is read and dropped, so that whoever writes it is not cut off.
    let _ = io::copy(&mut input, &mut io::sink());
    // So many bytes hold every text.
    let mut text = [0u8; 303104];
    let length = alphabet_text(&description[..size], &mut text).unwrap();
    rt.write_all(&text[..length])
}

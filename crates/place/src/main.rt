// The program: reads a page of frames on standard input and prints a line for each of its points.
#![tactic(auto)]

ghost use Rattle.std.specs.Prelude.{◌≤◌, length, IfOk};

use frames::{MAX_PAGE, MAX_TEXT};
use placing::place_page;
use std::io::{self, Read};

// Reads until `buf` is full or the input ends, and gives how many bytes it put at the front of `buf`.
fn read_full(input: &mut impl Read, buf: &mut [u8]) -> io::Result<usize>
    ensures { IfOk result (λ n. n ≤ length buf.new) }
{
    let mut done = 0;
    // A `while`: each read says how far it came.
    while done < buf.len() {
        let n = input.read(&mut buf[done..])?;
        if n == 0 {
            break;
        }
        done += n;
    }
    Ok(done)
}

fn main(rt: HostRuntime) -> io::Result<()> {
    // A fixed buffer: no heap, memory of a known size.
    let mut page = [0u8; MAX_PAGE + 1];
    let mut text = [0u8; MAX_TEXT];
    let n = read_full(&mut rt.stdin(), &mut page)?;
    match place_page(&page[..n], &mut text) {
        Ok(count) => rt.write_all(&text[..count]),
        Err(refusal) => println!(rt; "{refusal}"),
    }
}

// Runs a list from standard input on 64 rows of zeros and a fresh state, and prints what came: document 01, "The program `play`". The text
// is `report`'s. At most 4,097 bytes are read, reading on after short reads: with so many the list is too long. Where a read fails
// nothing is printed, since a list cut between two fields would look whole, and the program ends with the error.
#![tactic(auto)]

ghost use Rattle.std.specs.Prelude.{◌≤◌, IfOk, length};

use std::io;
use std::io::{Read, Write};

// Reads until the room is full, the input ends or a read fails.
fn take_all(rt: &impl Input, room: &mut [u8]) -> io::Result<usize>
    ensures { IfOk result (λ bytes. bytes ≤ length room.old) }
{
    // Each read says how much it has read: there is no heap for a `read_to_end`.
    let mut input = rt.reader();
    let mut at = 0;
    while at < room.len() {
        let bytes = input.read(&mut room[at..])?;
        if bytes == 0 {
            break;
        }
        at += bytes;
    }
    Ok(at)
}

fn main(rt: HostRuntime) -> io::Result<()> {
    let mut list = [0u8; 4097];
    let end = take_all(&rt, &mut list)?;
    // The text has room: none is refused.
    let mut text: [u8; 491540] = report::repeated(0);
    let bytes = report::report(&list[..end], &mut text).unwrap_or(0);
    io::writer(&rt).write_all(&text[..bytes])
}

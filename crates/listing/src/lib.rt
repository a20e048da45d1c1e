// What the programs share: their input as far as it goes, and where the part file starts in it.

#![tactic(auto)]

ghost use Rattle.std.specs.Prelude.{◌≡◌, ◌≤◌, min, length, IfOk};

use std::io::{self, Read};

// Reads standard input until the buffer is full or the input ends, and answers how many bytes came.
pub fn read_full(rt: &impl Input, buf: &mut [u8]) -> io::Result<usize>
    ensures { IfOk result (λ n. n ≤ length buf.new) }
{
    let mut reader = rt.reader();
    let mut done = 0;
    while done < buf.len() {
        let n = reader.read(&mut buf[done..])?;
        if n == 0 {
            break;
        }
        done += n;
    }
    Ok(done)
}

// Where the file starts in an input of n bytes with a head before it; with fewer than the head's bytes the file counts as empty.
pub fn file_start(n: usize, head: usize) -> usize
    ensures { result ≡ min n head }
{
    n.min(head)
}

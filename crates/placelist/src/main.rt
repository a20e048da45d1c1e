// The place lister: reads a place and a part file from standard input and prints the field's bounds there: "bounds", the low and
// the high, or "refused" and the number. The place is x, y and z as signed 16-bit numbers, little-endian, before the file's bytes;
// with fewer than 6 bytes the file counts as empty.

#![tactic(auto)]

ghost use Rattle.std.specs.Prelude.{codes, ◌++◌, Some};
ghost use Rattle.std.specs.Fmt.{signed_decimal};

use bounds::place_bounds;
use field::{Bounds, Position};
use listing::{file_start, read_full};
use record::i16_at;
use std::{fmt, io};

// The line of the bounds at a place.
#[derive(Clone, Copy)]
struct Line(Bounds);

impl fmt::Display for Line {
    ghost output = { λ l. Some (codes "bounds " ++ signed_decimal l.0.low ++ codes " " ++ signed_decimal l.0.high) };

    fn fmt<W: fmt::Write>(&self, f: &mut fmt::Formatter<W>) -> fmt::Result {
        let Bounds { low, high } = self.0;
        write!(f, "bounds {low} {high}")
    }
}

fn main(rt: HostRuntime) -> io::Result<()> {
    // a place and one byte more than the longest file
    let mut input = [0; 65543];
    let n = read_full(&rt, &mut input[..])?;
    let place = Position {
        x: i16_at(&input[..], 0),
        y: i16_at(&input[..], 2),
        z: i16_at(&input[..], 4),
    };
    match place_bounds(&input[file_start(n, 6)..n], place) {
        Err(refusal) => println!(rt; "{refusal}"),
        Ok(b) => println!(rt; "{}", Line(b)),
    }
}

// The ray lister (document 01, "Rays and places tried"): reads a ray, a budget and a part file from standard input, casts the ray
// in full and prints a line for each run of ticks with one mark, then the probes and how the cast ended; or "refused" and the
// number. The ray is A and B as six signed 16-bit numbers and the budget an unsigned one, little-endian, before the file's bytes;
// with fewer than 14 bytes the file counts as empty.

#![tactic(auto)]

ghost use Rattle.std.specs.Prelude.{◌≡◌, ◌+◌, ◌≤◌, ◌<◌, length};
ghost use Rattle.raylist.specs.Input.{position_at};
ghost use Rattle.raylist.specs.Runs.{Run};

use cast::full_cast;
use field::{NotLookedAt, Position, Ray, State};
use halving::Cast;
use listing::{file_start, read_full};
use record::{Refusal, i16_at, u16_at};
use std::io;

// The place whose three numbers stand from a byte on.
fn position_at(input: &[u8], at: usize) -> Position
    requires { at + 6 ≤ length input.now }
    ensures { result ≡ position_at input.now at }
{
    Position {
        x: i16_at(input, at),
        y: i16_at(input, at + 2),
        z: i16_at(input, at + 4),
    }
}

// The tick after the run that starts at a tick.
fn run_end(marks: &[u8], first: usize) -> usize
    requires { first < length marks.now }
    ensures { Run marks.now first result }
{
    for after in first + 1..marks.len() {
        if marks[after] != marks[first] {
            return after;
        }
    }
    marks.len()
}

// The line of a run; ticks not looked at make none.
fn print_run(rt: &impl Print, mark: u8, first: usize, after: usize) -> io::Result<()> {
    match State::try_from(mark) {
        Ok(state) => println!(rt; "{state} {first} {after}"),
        Err(NotLookedAt) => Ok(()),
    }
}

// A line for each run.
fn print_runs(rt: &impl Print, marks: &[u8]) -> io::Result<()> {
    let mut first = 0;
    while first < marks.len() {
        let after = run_end(marks, first);
        print_run(rt, marks[first], first, after)?;
        first = after;
    }
    Ok(())
}

// The last line.
fn print_answer(rt: &impl Print, answer: Result<Cast, Refusal>) -> io::Result<()> {
    match answer {
        Err(refusal) => println!(rt; "{refusal}"),
        Ok(Cast::Complete { probes }) => println!(rt; "probes {probes} complete"),
        Ok(Cast::Spent { tick, probes }) => println!(rt; "probes {probes} spent {tick}"),
    }
}

// A refused cast leaves every mark at 3, so it has no run lines.
fn main(rt: HostRuntime) -> io::Result<()> {
    // a ray, a budget and one byte more than the longest file
    let mut input = [0u8; 65551];
    let n = read_full(&rt, &mut input[..])?;
    let ray = Ray {
        start: position_at(&input[..], 0),
        end: position_at(&input[..], 6),
    };
    let budget = u16_at(&input[..], 12) as u32;
    let mut marks = [3; 1024];
    let answer = full_cast(&input[file_start(n, 14)..n], ray, budget, &mut marks[..]);
    print_runs(&rt, &marks[..])?;
    print_answer(&rt, answer)
}

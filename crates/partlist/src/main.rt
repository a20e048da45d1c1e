// The part lister: reads a part file from standard input and prints what its check answers: "refused" and the number, or the
// node count, the iso-value, the version and each node's six numbers (kind, r, x, y, z, w) in file order.

#![tactic(auto)]

ghost use Rattle.std.specs.Prelude.{◌≤◌};

use listing::read_full;
use nodes::{NUMBERS, load};
use part::Summary;
use std::io;

// A line for each six numbers.
fn print_nodes(rt: &impl Print, numbers: &[i32]) -> io::Result<()> {
    let (nodes, _) = numbers.as_chunks::<6>();
    for [kind, r, x, y, z, w] in nodes {
        println!(rt; "{kind} {r} {x} {y} {z} {w}")?;
    }
    Ok(())
}

// An accepted file's node count, iso-value and version, and its nodes.
fn print_accepted(rt: &impl Print, part: Summary, numbers: &[i32; NUMBERS]) -> io::Result<()>
    requires { part.nodes ≤ 511 }
{
    let Summary {
        nodes,
        iso,
        version,
    } = part;
    println!(rt; "nodes {nodes} iso {iso} version {version}")?;
    print_nodes(rt, &numbers[..6 * nodes])
}

fn main(rt: HostRuntime) -> io::Result<()> {
    let mut input = [0; 65537];
    let n = read_full(&rt, &mut input[..])?;
    let mut numbers = [0; NUMBERS];
    match load(&input[..n], &mut numbers) {
        Err(refusal) => println!(rt; "{refusal}"),
        Ok(part) => print_accepted(&rt, part, &numbers),
    }
}

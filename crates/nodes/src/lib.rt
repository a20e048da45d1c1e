// The nodes of an accepted part file, handed over as numbers in a lent array.

#![tactic(auto)]

ghost use Rattle.std.specs.Prelude.{◌≡◌, ◌+◌, ◌*◌, ◌≤◌, ◌∷◌, ◌++◌, [], length, drop};
ghost use Rattle.std.proofs.lemmas.List.Edits.{sets};
ghost use Rattle.part.specs.File.{nodes_from, check_file, Says};
ghost use Rattle.nodes.specs.Numbers.{numbers, loaded};

use part::{Summary, check, start_of};
use record::{Node, Refusal, node_at};

// Six numbers for each of the 511 records that question 4 allows.
pub const NUMBERS: usize = 3066;

// The six numbers of a node, at an array's start.
#[tactic(auto, unfolding(crate::specs::Numbers::numbers))]
fn put_first(n: Node, out: &mut [i32])
    requires { 6 ≤ length out.old }
    ensures { out.new ≡ numbers (n ∷ []) ++ drop 6 out.old }
{
    if let Some(first) = out.first_chunk_mut() {
        *first = [n.kind, n.radius, n.x, n.y, n.z, n.weight];
    }
}

// The six numbers of a node, from a place of the array on.
fn put_node(n: Node, out: &mut [i32], to: usize)
    requires { to + 6 ≤ length out.old }
    ensures { out.new ≡ sets out.old to (numbers (n ∷ [])) }
{
    put_first(n, &mut out[to..]);
}

// The numbers of n records, from the array's start on.
fn put_nodes(file: &[u8], n: usize, first: usize, out: &mut [i32])
    requires n_in_bounds { first + 12 * n ≤ length file.now }
    requires n_in_bounds_2 { 6 * n ≤ length out.old }
    ensures { out.new ≡ sets out.old 0 (numbers (nodes_from file.now n first)) }
{
    for k in 0..n {
        put_node(node_at(file, first + 12 * k), out, 6 * k);
    }
}

// The check of a file; where it is accepted, the nodes' numbers stand from the array's start on, and what lies past them stays.
pub fn load(file: &[u8], out: &mut [i32; NUMBERS]) -> Result<Summary, Refusal>
    ensures answer { result ≡ check_file file.now }
    ensures says { Says file.now result }
    ensures numbers { out.new ≡ loaded file.now out.old }
{
    let part = check(file)?;
    put_nodes(file, part.nodes, start_of(file), &mut out[..]);
    Ok(part)
}

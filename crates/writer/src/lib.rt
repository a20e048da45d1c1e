// The part file written: records and trailer from six numbers a node, an iso-value and a version (document 02, P2 and P9).

#![tactic(auto)]

ghost use Rattle.std.specs.Prelude.{◌≡◌, ◌+◌, ◌*◌, ◌≤◌, map, length};
ghost use Rattle.std.proofs.lemmas.List.Edits.{sets};
ghost use Rattle.record.specs.Questions.{first_no};
ghost use Rattle.part.specs.File.{records_questions};
ghost use Rattle.writer.specs.Bytes.{record_bytes, records_bytes, trailer_bytes};
ghost use Rattle.writer.specs.Given.{node_in, nodes_in, others_zero, record_of};
ghost use Rattle.writer.specs.Storable.{Storable, AllStorable};
ghost use Rattle.writer.specs.Writer.{counted, has_room, writer_questions, write_answer, buffer_left, WriteSays, Returned};

use part::is_known_version;
use record::{Node, Record, Refusal, ask, held_after, is_point, record_questions};

// ---- the nodes that are given

// The node whose six numbers stand from a place on.
#[tactic(auto, unfolding(crate::specs::Given::node_in))]
fn node_in(numbers: &[i32], at: usize) -> Node
    requires { at + 6 ≤ length numbers.now }
    ensures { result ≡ node_in numbers.now at }
{
    Node {
        kind: numbers[at],
        radius: numbers[at + 1],
        x: numbers[at + 2],
        y: numbers[at + 3],
        z: numbers[at + 4],
        weight: numbers[at + 5],
    }
}

// Are the five numbers after the kind zero?
#[tactic(auto, unfolding(crate::specs::Given::others_zero))]
fn others_zero(n: Node) -> bool
    ensures { result ≡ others_zero n }
{
    n.radius == 0 && n.x == 0 && n.y == 0 && n.z == 0 && n.weight == 0
}

// A node as a record: an operator's five other numbers are its zero bytes, and a point's byte 1 is written as 0.
#[tactic(auto, unfolding(crate::specs::Given::record_of, record::specs::Nodes::for_operator))]
fn record_of(n: Node) -> Record
    ensures { result ≡ record_of n }
{
    Record {
        node: n,
        zeroed: is_point(n) || others_zero(n),
    }
}

// ---- the questions

// Questions 6 to 10 about each of n nodes, and then question 11.
fn nodes_questions(numbers: &[i32], n: usize) -> Result<(), Refusal>
    requires { 6 * n ≤ length numbers.now }
    ensures { result ≡ first_no (records_questions (map record_of (nodes_in numbers.now n 0)) 0) }
{
    let mut held = 0;
    for k in 0..n {
        let rec = record_of(node_in(numbers, 6 * k));
        record_questions(rec, held)?;
        held = held_after(rec.node, held);
    }
    ask(Refusal::Root, held == 1)
}

// Is a count of numbers a multiple of six from 6 to 3,066?
#[tactic(auto, unfolding(crate::specs::Writer::counted))]
fn is_counted(n: usize) -> bool
    ensures { result ≡ counted n }
{
    (6..=3066).contains(&n) && n % 6 == 0
}

// Do records and trailer of so many nodes, from a place on, end within the buffer and by byte 65,536? The place is any number.
#[tactic(auto, unfolding(crate::specs::Writer::has_room, crate::specs::Bytes::size))]
fn has_room(count: usize, room: usize, place: usize) -> bool
    requires { count ≤ 511 }
    ensures { result ≡ has_room count room place }
{
    place
        .checked_add(12 * count + 12)
        .is_some_and(|end| end <= room && end <= 65536)
}

// All questions: 16, 3, 5, those about the nodes, 17.
#[tactic(auto, using(crate::proofs::Asked::in_order), unfolding(crate::specs::Given::given, record::specs::Questions::next))]
fn writer_questions(
    numbers: &[i32],
    iso: u32,
    version: u32,
    room: usize,
    place: usize,
) -> Result<(), Refusal>
    ensures { result ≡ first_no (writer_questions numbers.now iso version room place) }
{
    let n = numbers.len();
    ask(Refusal::Numbers, is_counted(n))?;
    ask(Refusal::Version, is_known_version(version as usize))?;
    ask(Refusal::Iso, (1..=4096).contains(&iso))?;
    nodes_questions(numbers, n / 6)?;
    ask(Refusal::Room, has_room(n / 6, room, place))
}

// ---- bytes

// These bytes, from a place on.
fn put_bytes(bytes: &[u8], out: &mut [u8], to: usize)
    requires { to + length bytes.now ≤ length out.old }
    ensures { out.new ≡ sets out.old to bytes.now }
{
    out[to..to + bytes.len()].copy_from_slice(bytes);
}

// A node's record.
fn put_record(n: Node, out: &mut [u8], to: usize)
    requires storable { Storable n }
    requires to_in_bounds { to + 12 ≤ length out.old }
    ensures { out.new ≡ sets out.old to (record_bytes n) }
{
    put_bytes(&[n.kind as u8, 0], out, to);
    put_bytes(&(n.radius as u16).to_le_bytes(), out, to + 2);
    put_bytes(&(n.x as i16).to_le_bytes(), out, to + 4);
    put_bytes(&(n.y as i16).to_le_bytes(), out, to + 6);
    put_bytes(&(n.z as i16).to_le_bytes(), out, to + 8);
    put_bytes(&(n.weight as i16).to_le_bytes(), out, to + 10);
}

// The records of n nodes, from a place on.
fn put_records(numbers: &[i32], n: usize, out: &mut [u8], place: usize)
    requires n_in_bounds { 6 * n ≤ length numbers.now }
    requires all_storable { AllStorable (nodes_in numbers.now n 0) }
    requires n_in_bounds_2 { place + 12 * n ≤ length out.old }
    ensures { out.new ≡ sets out.old place (records_bytes (nodes_in numbers.now n 0)) }
{
    for k in 0..n {
        put_record(node_in(numbers, 6 * k), out, place + 12 * k);
    }
}

// The trailer after so many records.
fn put_trailer(count: usize, iso: usize, version: usize, out: &mut [u8], to: usize)
    requires count_bound { count ≤ 511 }
    requires to_in_bounds { to + 12 ≤ length out.old }
    ensures { out.new ≡ sets out.old to (trailer_bytes count iso version) }
{
    let distance = 12 * count + 12;
    put_bytes(&((iso % 65536) as u16).to_le_bytes(), out, to);
    put_bytes(&((version % 65536) as u16).to_le_bytes(), out, to + 2);
    put_bytes(&(distance as u32).to_le_bytes(), out, to + 4);
    put_bytes(b"TREE", out, to + 8);
}

// ---- the call

// Records and trailer from the place on, and the place just after the trailer; a refused call changes no byte.
pub fn write(
    numbers: &[i32],
    iso: u32,
    version: u32,
    buffer: &mut [u8],
    place: usize,
) -> Result<usize, Refusal>
    ensures answer { result ≡ write_answer numbers.now iso version (length buffer.old) place }
    ensures bytes { buffer.new ≡ buffer_left numbers.now iso version buffer.old place }
    ensures says { WriteSays numbers.now iso version buffer.old place result buffer.new }
    ensures returned { Returned numbers.now iso version buffer.old place result buffer.new }
{
    writer_questions(numbers, iso, version, buffer.len(), place)?;
    let count = numbers.len() / 6;
    put_records(numbers, count, buffer, place);
    let after = place + 12 * count;
    put_trailer(count, iso as usize, version as usize, buffer, after);
    Ok(after + 12)
}

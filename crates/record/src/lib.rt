// A record of the part file: the numbers in its bytes, its node, and the questions about it (document 01, "The part file", questions 6 to 10;
// document 02, P1).

#![tactic(auto)]

ghost use Rattle.std.specs.Prelude.{◌≡◌, ◌+◌, ◌≤◌, ◌<◌, length};
ghost use Rattle.record.specs.Bytes.{u16, u32, i16, zeros};
ghost use Rattle.record.specs.Questions.{number, asked, first_no};
ghost use Rattle.record.specs.Nodes.{is_point, kind_known, coordinate, in_range, held_after};
ghost use Rattle.record.specs.Record.{node_at, record_at, node_questions, record_questions};
ghost use Rattle.record.specs.Ranges.{Ready};

use std::fmt;

// What a question that is answered no refuses. The numbers are the documents': question 13 is asked no more, and the writer's and the totals'
// questions are 16 to 18.
#[derive(Clone, Copy, Debug, PartialEq, Eq)]
pub enum Refusal {
    Length = 1,
    Mark = 2,
    Version = 3,
    Distance = 4,
    Iso = 5,
    Kind = 6,
    ZeroBytes = 7,
    Point = 8,
    Operands = 9,
    Depth = 10,
    Root = 11,
    Coordinates = 12,
    Ends = 13,
    Buffer = 14,
    Millimetres = 15,
    Numbers = 16,
    Room = 17,
    SavedLength = 18,
}

impl Refusal {
    // The documents' number.
    pub fn number(self) -> u32
        ensures { result ≡ number self }
    {
        self as u32
    }
}

impl fmt::Display for Refusal {
    fn fmt<W: fmt::Write>(&self, f: &mut fmt::Formatter<W>) -> fmt::Result {
        write!(f, "refused {}", self.number())
    }
}

// A node of the tree: the six numbers of a record.
#[derive(Clone, Copy)]
pub struct Node {
    pub kind: i32,
    pub radius: i32,
    pub x: i32,
    pub y: i32,
    pub z: i32,
    pub weight: i32,
}

// A record of the file, or what is to be one: its node, and whether its zero bytes are zero.
#[derive(Clone, Copy)]
pub struct Record {
    pub node: Node,
    pub zeroed: bool,
}

// ---- numbers in the bytes, little-endian

#[tactic(auto, unfolding(crate::specs::Bytes::u16))]
pub fn u16_at(file: &[u8], at: usize) -> usize
    requires { at + 2 ≤ length file.now }
    ensures { (result ≡ u16 file.now at) × (result < 65536) }
{
    usize::from(u16::from_le_bytes([file[at], file[at + 1]]))
}

#[tactic(auto, unfolding(crate::specs::Bytes::u32, crate::specs::Bytes::u16))]
pub fn u32_at(file: &[u8], at: usize) -> usize
    requires { at + 4 ≤ length file.now }
    ensures { result ≡ u32 file.now at }
{
    u32::from_le_bytes([file[at], file[at + 1], file[at + 2], file[at + 3]]) as usize
}

#[tactic(auto, unfolding(crate::specs::Bytes::i16, crate::specs::Bytes::u16))]
pub fn i16_at(file: &[u8], at: usize) -> i32
    requires { at + 2 ≤ length file.now }
    ensures { result ≡ i16 file.now at }
{
    i32::from(i16::from_le_bytes([file[at], file[at + 1]]))
}

// Are the 11 bytes after a place zero?
fn are_zero_after(file: &[u8], at: usize) -> bool
    requires { at + 12 ≤ length file.now }
    ensures { result ≡ zeros file.now (at + 1) 11 }
{
    (file[at + 1] == 0)
        & (u16_at(file, at + 2) == 0)
        & (u32_at(file, at + 4) == 0)
        & (u32_at(file, at + 8) == 0)
}

// ---- questions

// One question.
pub fn ask(refusal: Refusal, yes: bool) -> Result<(), Refusal>
    ensures { result ≡ asked refusal yes }
{
    if yes { Ok(()) } else { Err(refusal) }
}

// ---- a record

// The node of the record at a place.
#[tactic(auto, unfolding(crate::specs::Record::node_at))]
pub fn node_at(file: &[u8], at: usize) -> Node
    requires { at + 12 ≤ length file.now }
    ensures { result ≡ node_at file.now at }
{
    Node {
        kind: i32::from(file[at]),
        radius: u16_at(file, at + 2) as i32,
        x: i16_at(file, at + 4),
        y: i16_at(file, at + 6),
        z: i16_at(file, at + 8),
        weight: i16_at(file, at + 10),
    }
}

#[tactic(auto, unfolding(crate::specs::Nodes::is_point))]
pub fn is_point(n: Node) -> bool
    ensures { result ≡ is_point n }
{
    n.kind == 1
}

// Is a kind 1 to 5?
#[tactic(auto, unfolding(crate::specs::Nodes::kind_known))]
fn is_known(n: Node) -> bool
    ensures { result ≡ kind_known n }
{
    (1..=5).contains(&n.kind)
}

// Is a coordinate -2047 to 2047?
#[tactic(auto, unfolding(crate::specs::Nodes::coordinate))]
pub fn is_coordinate(z: i32) -> bool
    ensures { result ≡ coordinate z }
{
    (-2047..=2047).contains(&z)
}

// Are a point's numbers in their ranges?
fn in_range(n: Node) -> bool
    ensures { result ≡ in_range n }
{
    (1..=1024).contains(&n.radius)
        & is_coordinate(n.x)
        & is_coordinate(n.y)
        & is_coordinate(n.z)
        & (-4096..=4096).contains(&n.weight)
}

// Questions 8 to 10 about a node. Of these, 9 asks nothing of a point, and 8 and 10 nothing of an operator.
fn node_questions(node: Node, held: usize) -> Result<(), Refusal>
    ensures { result ≡ first_no (node_questions node held) }
{
    if is_point(node) {
        ask(Refusal::Point, in_range(node))?;
        ask(Refusal::Depth, held < 64)
    } else {
        ask(Refusal::Operands, 2 <= held)
    }
}

// Questions 6 to 10 about a record.
#[tactic(auto, unfolding(crate::specs::Record::record_questions, crate::specs::Questions::first_no))]
pub fn record_questions(rec: Record, held: usize) -> Result<(), Refusal>
    ensures { result ≡ first_no (record_questions rec held) }
{
    ask(Refusal::Kind, is_known(rec.node))?;
    ask(Refusal::ZeroBytes, rec.zeroed)?;
    node_questions(rec.node, held)
}

// The same about the record at a place. Of a point only byte 1 is a zero byte.
pub fn record_questions_at(file: &[u8], at: usize, held: usize) -> Result<(), Refusal>
    requires { at + 12 ≤ length file.now }
    ensures { result ≡ first_no (record_questions (record_at file.now at) held) }
{
    let node = node_at(file, at);
    let zeroed = if is_point(node) {
        file[at + 1] == 0
    } else {
        are_zero_after(file, at)
    };
    record_questions(Record { node, zeroed }, held)
}

// The values held after a node that found what it needs.
#[tactic(auto, unfolding(crate::specs::Nodes::held_after))]
pub fn held_after(node: Node, held: usize) -> usize
    requires { Ready node held }
    ensures { result ≡ held_after node held }
{
    if is_point(node) { held + 1 } else { held - 1 }
}

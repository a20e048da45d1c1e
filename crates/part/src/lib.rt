// The part file: its trailer, its records, and its check (document 01, "The part file"; questions 1 to 11; document 02, P9).

#![tactic(auto)]

ghost use Rattle.std.specs.Prelude.{◌≡◌, ◌+◌, ◌*◌, ◌≤◌, length};
ghost use Rattle.record.specs.Questions.{first_no};
ghost use Rattle.part.specs.File.{iso, version, version_known, distance, marked, trailer_questions, count, start, records_from, records_questions};
ghost use Rattle.part.specs.File.{file_questions, check_file, Says};
ghost use Rattle.part.specs.Accepted.{Trailer};

use record::{Refusal, ask, held_after, node_at, record_questions_at, u16_at, u32_at};

// What stays the same of an accepted file through a call: its node count, its iso-value and its version, which is 1 or 2.
#[derive(Clone, Copy)]
pub struct Summary {
    pub nodes: usize,
    pub iso: usize,
    pub version: usize,
}

// ---- the trailer

#[tactic(auto, unfolding(crate::specs::File::iso))]
fn iso_of(file: &[u8]) -> usize
    requires { 12 ≤ length file.now }
    ensures { result ≡ iso file.now }
{
    u16_at(file, file.len() - 12)
}

#[tactic(auto, unfolding(crate::specs::File::version))]
fn version_of(file: &[u8]) -> usize
    requires { 12 ≤ length file.now }
    ensures { result ≡ version file.now }
{
    u16_at(file, file.len() - 10)
}

#[tactic(auto, unfolding(crate::specs::File::distance))]
fn distance_of(file: &[u8]) -> usize
    requires { 12 ≤ length file.now }
    ensures { result ≡ distance file.now }
{
    u32_at(file, file.len() - 8)
}

// Is it a version that is read: 1, degree 4, or 2, degree 6?
pub fn is_known_version(version: usize) -> bool
    ensures { result ≡ version_known version }
{
    (1..=2).contains(&version)
}

// Are the last four bytes the mark?
#[tactic(auto, unfolding(crate::specs::File::marked, record::specs::Bytes::has_bytes))]
fn is_marked(file: &[u8]) -> bool
    requires { 12 ≤ length file.now }
    ensures { result ≡ marked file.now }
{
    file.ends_with(b"TREE")
}

// Questions 1 to 5.
#[tactic(auto, unfolding(crate::specs::File::trailer_questions, record::specs::Questions::first_no))]
fn trailer_questions(file: &[u8]) -> Result<(), Refusal>
    ensures { result ≡ first_no (trailer_questions file.now) }
{
    let n = file.len();
    ask(Refusal::Length, (24..=65536).contains(&n))?;
    ask(Refusal::Mark, is_marked(file))?;
    ask(Refusal::Version, is_known_version(version_of(file)))?;
    let d = distance_of(file);
    let whole = (24..=6144).contains(&d) && d % 12 == 0;
    ask(Refusal::Distance, whole && d <= n)?;
    ask(Refusal::Iso, (1..=4096).contains(&iso_of(file)))
}

// ---- the records

// How many records there are before the trailer.
#[tactic(auto, unfolding(crate::specs::File::count))]
pub fn count_of(file: &[u8]) -> usize
    requires { Trailer file.now }
    ensures { result ≡ count file.now }
{
    distance_of(file) / 12 - 1
}

// Where the first record is.
#[tactic(auto, unfolding(crate::specs::File::start))]
pub fn start_of(file: &[u8]) -> usize
    requires { Trailer file.now }
    ensures { result ≡ start file.now }
{
    file.len() - distance_of(file)
}

// Questions 6 to 10 about each of n records from a place on, and then question 11.
fn records_questions(file: &[u8], n: usize, first: usize) -> Result<(), Refusal>
    requires { first + 12 * n ≤ length file.now }
    ensures { result ≡ first_no (records_questions (records_from file.now n first) 0) }
{
    let mut held = 0;
    for k in 0..n {
        let at = first + 12 * k;
        record_questions_at(file, at, held)?;
        held = held_after(node_at(file, at), held);
    }
    ask(Refusal::Root, held == 1)
}

// ---- the file

// Questions 1 to 11.
fn file_questions(file: &[u8]) -> Result<(), Refusal>
    ensures { result ≡ first_no (file_questions file.now) }
{
    trailer_questions(file)?;
    records_questions(file, count_of(file), start_of(file))
}

// The check of a file.
pub fn check(file: &[u8]) -> Result<Summary, Refusal>
    ensures answer { result ≡ check_file file.now }
    ensures says { Says file.now result }
{
    file_questions(file)?;
    Ok(Summary {
        nodes: count_of(file),
        iso: iso_of(file),
        version: version_of(file),
    })
}

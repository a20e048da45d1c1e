// A host's numbers: the place or ray that it hands over, what it gets for each case of an answer, and the running totals that it
// lends (document 01, "Calls"; document 02, P2 and P4).

#![tactic(auto)]

ghost use Rattle.std.specs.Prelude.{◌≡◌, ◌^◌, ◌<◌};
ghost use Rattle.halving.specs.Answers.{cast_number, hit_number};
ghost use Rattle.cast.specs.Column.{column_number};
ghost use Rattle.numbers.specs.Numbers.{place_at, ray_of, check_number, bounds_number, bounds_left, write_number};
ghost use Rattle.numbers.specs.Numbers.{lent_after, saved_number, saved_left};

use field::{Bounds, Segment, Vector};
use halving::{Cast, FirstHit};
use part::Summary;
use record::Refusal;
use tally::{Totals, count};

// What k or the version counts in a number, and what a tick or the node count does: 2³² and 65,536.
pub const CASE: u64 = 4294967296;

pub const TICK: u64 = 65536;

// ---- handed over

// A place of its three coordinates, in whole steps or in millimetres.
pub fn place_at<T: Copy>(x: T, y: T, z: T) -> Vector<T>
    ensures { result ≡ place_at x y z }
{
    Vector { x, y, z }
}

// The ray from A to B, in whole steps or in millimetres.
pub fn ray_of<T: Copy>(ax: T, ay: T, az: T, bx: T, by: T, bz: T) -> Segment<T>
    ensures { result ≡ ray_of ax ay az bx by bz }
{
    Segment {
        start: place_at(ax, ay, az),
        end: place_at(bx, by, bz),
    }
}

// ---- given back

#[tactic(auto, unfolding(halving::specs::Answers::cast_number))]
pub fn cast_number(answer: Result<Cast, Refusal>) -> u32
    requires { cast_number answer < 2 ^ 32 }
    ensures { result ≡ cast_number answer }
{
    answer.map_or_else(Refusal::number, |cast| match cast {
        Cast::Complete { probes } => 65536 + probes,
        Cast::Spent { probes, .. } => 131072 + probes,
    })
}

#[tactic(auto, unfolding(halving::specs::Answers::hit_number))]
pub fn hit_number(answer: Result<FirstHit, Refusal>) -> u64
    requires { hit_number answer < 2 ^ 64 }
    ensures { result ≡ hit_number answer }
{
    match answer {
        Err(refusal) => refusal.number() as u64,
        Ok(FirstHit::Hit { tick, mark, probes }) => mark as u64 * CASE
            + tick as u64 * TICK
            + probes as u64,
        Ok(FirstHit::Clear { probes }) => 3 * CASE + probes as u64,
        Ok(FirstHit::Spent { tick, probes }) => 4 * CASE + tick as u64 * TICK + probes as u64,
    }
}

#[tactic(auto, unfolding(cast::specs::Column::column_number))]
pub fn column_number(answer: Result<u32, Refusal>) -> u32
    requires { column_number answer < 2 ^ 32 }
    ensures { result ≡ column_number answer }
{
    answer.map_or_else(Refusal::number, |probes| 65536 + probes)
}

#[tactic(auto, unfolding(crate::specs::Numbers::check_number))]
pub fn check_number(answer: Result<Summary, Refusal>) -> u64
    requires { check_number answer < 2 ^ 64 }
    ensures { result ≡ check_number answer }
{
    match answer {
        Err(refusal) => refusal.number() as u64,
        Ok(part) => part.version as u64 * CASE + part.nodes as u64 * TICK + part.iso as u64,
    }
}

// The number of the bounds at a place; they go into the lent pair.
#[tactic(auto, unfolding(crate::specs::Numbers::bounds_number, crate::specs::Numbers::bounds_left))]
pub fn bounds_number(answer: Result<Bounds, Refusal>, lent: &mut [i64; 2]) -> u32
    ensures number { result ≡ bounds_number answer }
    ensures pair { lent.new ≡ bounds_left answer lent.old }
{
    match answer {
        Err(refusal) => refusal.number(),
        Ok(b) => {
            *lent = [b.low, b.high];
            65536
        }
    }
}

#[tactic(auto, unfolding(crate::specs::Numbers::write_number))]
pub fn write_number(answer: Result<usize, Refusal>) -> u32
    requires { write_number answer < 2 ^ 32 }
    ensures { result ≡ write_number answer }
{
    answer.map_or_else(Refusal::number, |end| 65536 + end as u32)
}

#[tactic(auto, unfolding(crate::specs::Numbers::saved_number))]
pub fn saved_number(answer: Result<Totals, Refusal>) -> u32
    ensures { result ≡ saved_number answer }
{
    answer.map_or_else(Refusal::number, |_| 65536)
}

// ---- the running totals, lent as three numbers

// Counts a call.
#[tactic(auto, unfolding(crate::specs::Numbers::lent_after))]
pub fn count_lent(tally: Option<u32>, lent: &mut [u64; 3])
    ensures { lent.new ≡ lent_after tally lent.old }
{
    *lent = count(Totals::from(*lent), tally).into();
}

// The totals of a saved record that is read take their place.
#[tactic(auto, unfolding(crate::specs::Numbers::saved_left))]
pub fn put_saved(answer: Result<Totals, Refusal>, lent: &mut [u64; 3])
    ensures { lent.new ≡ saved_left answer lent.old }
{
    if let Ok(totals) = answer {
        *lent = totals.into();
    }
}

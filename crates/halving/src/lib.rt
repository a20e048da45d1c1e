// The halving search over the prepared numbers of a ray of two to any power ticks: the cast of the whole ray, and its first hit (document 01,
// "Marks and probes", "Calls").

#![tactic(auto)]

ghost use Rattle.std.specs.Prelude.{◌≡◌, ◌++◌, ◌+◌, ◌-◌, ◌≤◌, length, take, drop, replicate};
ghost use Rattle.std.proofs.lemmas.List.Edits.{sets};
ghost use Rattle.field.specs.Bounds.{state_mark, not_looked_at};
ghost use Rattle.halving.specs.Halving.{span_marks, walk, cast_looked_at, handed};
ghost use Rattle.halving.specs.FirstHit.{hit};
ghost use Rattle.halving.specs.Search.{Halvable, state_in};
ghost use Rattle.halving.specs.Answers.{cast_reaches};

use bounds::{HELD, span_state};
use field::{Bounds, NOT_LOOKED_AT, Span, State};
use record::Refusal;

mod search;

pub use search::Search;

// How a full cast ends: complete, or spent at the tick reached; and its probes.
#[derive(Clone, Copy, Debug, PartialEq, Eq)]
pub enum Cast {
    Complete { probes: u32 },
    Spent { tick: usize, probes: u32 },
}

// How a first hit ends: at the first tick that is not empty, with its mark; clear, all ticks being empty; or spent at the tick reached; and its
// probes.
#[derive(Clone, Copy, Debug, PartialEq, Eq)]
pub enum FirstHit {
    Hit { tick: usize, mark: u8, probes: u32 },
    Clear { probes: u32 },
    Spent { tick: usize, probes: u32 },
}

// ---- the search

// One probe: the state of the ticks from tick first on. Here and below, the lent array `held` is a probe's working space.
pub fn probe(held: &mut [Bounds; HELD], s: &Search, first: usize, len: usize) -> State
    requires len_bound { first + len ≤ s.now.ticks }
    ensures { state_mark result ≡ state_in s.now first len }
{
    let span = Span {
        from: first as u64,
        to: (first + len) as u64,
        ticks: s.ticks as u64,
    };
    span_state(held, s.prepared, s.part, span)
}

// The same mark for len ticks from tick first on.
pub fn fill(marks: &mut [u8], first: usize, len: usize, mark: u8)
    requires { first + len ≤ length marks.old }
    ensures { marks.new ≡ sets marks.old first (replicate len mark) }
{
    marks[first..first + len].fill(mark);
}

// Casts the len ticks from tick first on, two to the power level, with some probes made before.
fn cast_span(
    out: &mut [u8],
    held: &mut [Bounds; HELD],
    s: &Search,
    first: usize,
    len: usize,
    level: usize,
    made: u32,
) -> Cast
    requires halvable { Halvable s.now.ticks first len level }
    requires len_in_bounds { first + len ≤ length out.old }
    ensures answer { result ≡ walk (state_in s.now) s.now.budget level first made }
    ensures bytes { out.new ≡ sets out.old first
        (take (cast_looked_at (first + len) result - first) (span_marks (state_in s.now) level first)) }
{
    if s.budget <= made {
        return Cast::Spent {
            tick: first,
            probes: made,
        };
    }
    match probe(held, s, first, len) {
        State::Crossing if level > 0 => {
            let half = len / 2;
            let middle = first + half;
            let left = cast_span(out, held, s, first, half, level - 1, made + 1);
            let Cast::Complete { probes } = left else {
                return left;
            };
            cast_span(out, held, s, middle, half, level - 1, probes)
        }
        state => {
            fill(out, first, len, state.mark());
            Cast::Complete { probes: made + 1 }
        }
    }
}

// How many of n ticks were looked at by what a cast answers.
#[tactic(auto, unfolding(crate::specs::Halving::cast_looked_at, crate::specs::Answers::cast_reaches))]
fn looked_at(n: usize, answer: Result<Cast, Refusal>) -> usize
    ensures { result ≡ cast_reaches n answer }
{
    match answer {
        Err(_) => 0,
        Ok(Cast::Complete { .. }) => n,
        Ok(Cast::Spent { tick, .. }) => tick,
    }
}

// Marks 3 the ticks that a cast of so many did not look at.
pub fn mark_rest(out: &mut [u8], ticks: usize, answer: Result<Cast, Refusal>)
    requires answer_bound { cast_reaches ticks answer ≤ ticks }
    requires ticks_in_bounds { ticks ≤ length out.old }
    ensures { out.new
        ≡ sets out.old (cast_reaches ticks answer) (replicate (ticks - cast_reaches ticks answer) not_looked_at) }
{
    let reached = looked_at(ticks, answer);
    fill(out, reached, ticks - reached, NOT_LOOKED_AT);
}

// Casts a whole ray, of two to the power level ticks, and hands over every tick's mark, 3 for those not looked at.
pub fn cast_ticks(out: &mut [u8], held: &mut [Bounds; HELD], s: &Search, level: usize) -> Cast
    requires halvable { Halvable s.now.ticks 0 s.now.ticks level }
    requires ticks_in_bounds { s.now.ticks ≤ length out.old }
    ensures answer { result ≡ walk (state_in s.now) s.now.budget level 0 0 }
    ensures bytes { out.new
        ≡ handed s.now.ticks result (span_marks (state_in s.now) level 0) ++ drop s.now.ticks out.old }
{
    let cast = cast_span(out, held, s, 0, s.ticks, level, 0);
    mark_rest(out, s.ticks, Ok(cast));
    cast
}

// The first hit in the len ticks from tick first on, two to the power level, with some probes made before.
fn hit_span(
    held: &mut [Bounds; HELD],
    s: &Search,
    first: usize,
    len: usize,
    level: usize,
    made: u32,
) -> FirstHit
    requires halvable { Halvable s.now.ticks first len level }
    ensures { result ≡ hit (state_in s.now) s.now.budget level first made }
{
    if s.budget <= made {
        return FirstHit::Spent {
            tick: first,
            probes: made,
        };
    }
    match probe(held, s, first, len) {
        State::Empty => FirstHit::Clear { probes: made + 1 },
        State::Crossing if level > 0 => {
            let half = len / 2;
            let middle = first + half;
            let left = hit_span(held, s, first, half, level - 1, made + 1);
            let FirstHit::Clear { probes } = left else {
                return left;
            };
            hit_span(held, s, middle, half, level - 1, probes)
        }
        state => FirstHit::Hit {
            tick: first,
            mark: state.mark(),
            probes: made + 1,
        },
    }
}

// The first hit on a whole ray, of two to the power level ticks.
pub fn hit_ticks(held: &mut [Bounds; HELD], s: &Search, level: usize) -> FirstHit
    requires halvable { Halvable s.now.ticks 0 s.now.ticks level }
    ensures { result ≡ hit (state_in s.now) s.now.budget level 0 0 }
{
    hit_span(held, s, 0, s.ticks, level, 0)
}

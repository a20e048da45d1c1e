// The marching full cast (document 02, P5): candidates from tick 0 on, the first of 64 ticks, each decided, halved or one tick long.

#![tactic(auto)]

ghost use Rattle.std.specs.Prelude.{◌≡◌, ◌++◌, ◌≤◌, length, drop};
ghost use Rattle.std.proofs.lemmas.List.Edits.{sets};
ghost use Rattle.field.specs.Solid.{solid_of};
ghost use Rattle.halving.specs.Halving.{handed};
ghost use Rattle.halving.specs.Search.{state_in};
ghost use Rattle.cast.specs.Ticks.{exponent};
ghost use Rattle.march.specs.Marching.{first_length, cut, marks_of, marks_from, march_marks, march};
ghost use Rattle.march.specs.Candidates.{Waiting, Followed};
ghost use Rattle.march.specs.Calls.{marching_cast, marched_left};
ghost use Rattle.march.specs.Demands.{MarchDemands};

use bounds::{HELD, NO_BOUNDS};
use cast::{TICKS, load_buffer};
use field::{Bounds, Ray, State};
use halving::{Cast, Search, fill, mark_rest, probe};
use loading::PREPARED;
use record::Refusal;

// The first candidate's ticks.
pub const FIRST: usize = 64;

// The first tick of a candidate, and its length before it is cut to what is left of the ray.
#[derive(Clone, Copy)]
pub struct Candidate {
    pub first: usize,
    pub length: usize,
}

// ---- the search

// A candidate's ticks, cut to those that are left of the ray.
fn cut_to(first: usize, length: usize, ticks: usize) -> usize
    requires { first ≤ ticks }
    ensures { result ≡ cut ticks first length }
{
    length.min(ticks - first)
}

// Probes a candidate, marks its ticks if they are known then, and gives the next one. Here and below, the lent array `held` is a probe's working
// space.
fn advance(out: &mut [u8], held: &mut [Bounds; HELD], s: &Search, at: Candidate) -> Candidate
    requires waiting { Waiting s.now.ticks at }
    requires ticks_in_bounds { s.now.ticks ≤ length out.old }
    ensures next { Followed (state_in s.now) s.now.ticks at result }
    ensures bytes { out.new
        ≡ sets out.old at.first (marks_of (state_in s.now) s.now.ticks at.first at.length) }
{
    let Candidate { first, length } = at;
    let len = cut_to(first, length, s.ticks);
    match probe(held, s, first, len) {
        State::Crossing if len > 1 => Candidate {
            first,
            length: len / 2,
        },
        state => {
            fill(out, first, len, state.mark());
            Candidate {
                first: first + len,
                length: 2 * len,
            }
        }
    }
}

// Marches through the ray as far as the budget goes, and marks the ticks that it looks at.
fn march_on(out: &mut [u8], held: &mut [Bounds; HELD], s: &Search) -> Cast
    requires ticks_in_bounds { s.now.ticks ≤ length out.old }
    ensures answer { result ≡ march (state_in s.now) s.now.ticks s.now.budget }
    ensures bytes { out.new
        ≡ sets out.old 0 (marks_from (state_in s.now) s.now.ticks s.now.budget 0 first_length) }
{
    let mut at = Candidate {
        first: 0,
        length: FIRST,
    };
    let mut made: u32 = 0;
    while at.first < s.ticks {
        if s.budget <= made {
            return Cast::Spent {
                tick: at.first,
                probes: made,
            };
        }
        at = advance(out, held, s, at);
        made += 1;
    }
    Cast::Complete { probes: made }
}

// Marches through a whole ray and hands over every tick's mark, 3 for those not looked at.
fn march_ticks(out: &mut [u8], held: &mut [Bounds; HELD], s: &Search) -> Cast
    requires ticks_in_bounds { s.now.ticks ≤ length out.old }
    ensures answer { result ≡ march (state_in s.now) s.now.ticks s.now.budget }
    ensures bytes { out.new
        ≡ handed s.now.ticks result (march_marks (state_in s.now) s.now.ticks) ++ drop s.now.ticks out.old }
{
    let cast = march_on(out, held, s);
    mark_rest(out, s.ticks, Ok(cast));
    cast
}

// ---- the call

// Marching full cast: every tick's mark, as far as the budget goes.
pub fn marching_cast(file: &[u8], ray: Ray, budget: u32, marks: &mut [u8]) -> Result<Cast, Refusal>
    ensures answer { result ≡ marching_cast file.now ray budget (length marks.old) }
    ensures bytes { marks.new ≡ marched_left file.now ray budget marks.old }
    ensures demands { MarchDemands (solid_of file.now) ray exponent budget result marks.new }
{
    let mut prepared = [0i64; PREPARED];
    let mut held = [NO_BOUNDS; HELD];
    let part = load_buffer(file, ray, TICKS, marks.len(), &mut prepared)?;
    let s = Search {
        prepared: &prepared[..],
        part,
        ticks: TICKS,
        budget,
    };
    Ok(march_ticks(marks, &mut held, &s))
}

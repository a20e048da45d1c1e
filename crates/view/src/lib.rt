// The viewer's first hit: a ray of six floats in millimetres taken to whole steps, and a first hit's ticks given back as floats
// (document 01, "Calls", question 15).

#![tactic(auto)]

ghost use Rattle.std.specs.Prelude.{◌≡◌, ◌^◌, ◌<◌, ◌≤◌};
ghost use Rattle.halving.specs.Answers.{hit_reaches};
ghost use Rattle.cast.specs.Ticks.{exponent};
ghost use Rattle.view.specs.Floats.{place_of};
ghost use Rattle.view.specs.Steps.{times64, steps_of, Exactly};
ghost use Rattle.view.specs.Ray.{end_steps, ray_steps};
ghost use Rattle.view.specs.Call.{view_of, viewer_ticks, viewer_first_hit};
ghost use Rattle.view.specs.Demands.{ViewDemands};

use cast::{TICKS, first_hit};
use field::{Position, Ray, Segment, Vector};
use halving::FirstHit;
use part::check;
use record::Refusal;

// An end of the viewer's ray, in millimetres.
pub type ViewEnd = Vector<f32>;

// The viewer's ray from end A to end B.
pub type ViewRay = Segment<f32>;

// What the viewer's first hit answers: the refusal; where the first tick that is not empty starts, its mark and the probes; the probes, if all are
// empty; or where the tick reached starts and the probes. Places are parts of the ray, from 0 to 1. Document 01 names this form.
#[derive(Clone, Copy)]
pub enum ViewAnswer {
    Refused(Refusal),
    Hit { entry: f32, mark: u8, probes: u32 },
    Clear { probes: u32 },
    Spent { place: f32, probes: u32 },
}

// ---- millimetres to steps

fn scale(x: f32) -> f32
    ensures { result ≡ times64 x }
{
    x * 64.0
}

// A float in millimetres as whole steps of 1/64 mm: question 15 of one float.
pub fn in_steps(x: f32) -> Option<i32>
    ensures answer { result ≡ steps_of x }
    ensures exactly { Exactly x result }
{
    let p = scale(x);
    // a NaN and the infinities fail one of these tests
    if -2047.0 <= p {
        if p <= 2047.0 {
            let n = std::num::truncating_f32_to_i64(p);
            if n as f32 == p {
                return Some(n as i32);
            }
        }
    }
    None
}

fn end_in_steps(e: ViewEnd) -> Option<Position>
    ensures { result ≡ end_steps e }
{
    Some(Position {
        x: in_steps(e.x)?,
        y: in_steps(e.y)?,
        z: in_steps(e.z)?,
    })
}

#[tactic(auto, unfolding(crate::specs::Ray::end_steps, crate::specs::Ray::ray_steps, crate::specs::Ray::ray_whole, crate::specs::Ray::steps_ray))]
fn ray_in_steps(ray: ViewRay) -> Option<Ray>
    ensures { result ≡ ray_steps ray }
{
    Some(Ray {
        start: end_in_steps(ray.start)?,
        end: end_in_steps(ray.end)?,
    })
}

// ---- ticks to places

// Where a tick starts.
fn place_of(tick: usize, ticks: usize) -> f32
    requires { (tick ≤ ticks) × (0 < ticks) × (ticks ≤ 4096) }
    ensures { result ≡ place_of ticks tick }
{
    tick as f32 / ticks as f32
}

// A first hit's answer with its tick as a place.
#[tactic(auto, unfolding(crate::specs::Call::view_of, halving::specs::Answers::hit_reaches, halving::specs::FirstHit::hit_looked_at))]
fn view_of(answer: Result<FirstHit, Refusal>, ticks: usize) -> ViewAnswer
    requires answer_bound { hit_reaches ticks answer ≤ ticks }
    requires ticks_nonzero { (0 < ticks) × (ticks ≤ 4096) }
    ensures { result ≡ view_of ticks answer }
{
    match answer {
        Err(refusal) => ViewAnswer::Refused(refusal),
        Ok(FirstHit::Hit { tick, mark, probes }) => ViewAnswer::Hit {
            entry: place_of(tick, ticks),
            mark,
            probes,
        },
        Ok(FirstHit::Clear { probes }) => ViewAnswer::Clear { probes },
        Ok(FirstHit::Spent { tick, probes }) => ViewAnswer::Spent {
            place: place_of(tick, ticks),
            probes,
        },
    }
}

// ---- the call

// Viewer's first hit in ticks. Whole steps are in question 12's range, so a first hit answers 12 with yes and its other questions
// are the viewer's.
pub fn viewer_ticks(file: &[u8], ray: ViewRay, budget: u32) -> Result<FirstHit, Refusal>
    ensures answer { result ≡ viewer_ticks exponent file.now ray budget }
    ensures demands { ViewDemands file.now ray exponent budget (view_of (2 ^ exponent) result) }
{
    match ray_in_steps(ray) {
        Some(steps) => first_hit(file, steps, budget),
        None => {
            check(file)?;
            Err(Refusal::Millimetres)
        }
    }
}

// Viewer's first hit.
pub fn viewer_first_hit(file: &[u8], ray: ViewRay, budget: u32) -> ViewAnswer
    ensures answer { result ≡ viewer_first_hit file.now ray budget }
    ensures demands { ViewDemands file.now ray exponent budget result }
{
    view_of(viewer_ticks(file, ray, budget), TICKS)
}

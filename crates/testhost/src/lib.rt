// Entries for tests alone, of what no host in C needs: the calls that are handed the running totals as a record, the reading of a saved
// record into it, and the viewer's answer with its place as a float. Hosts link `fenalukki`, which has none of these.

#![tactic(auto)]

ghost use Rattle.std.specs.Prelude.{◌≡◌, [], ◌∷◌, length};
ghost use Rattle.view.specs.Call.{viewer_first_hit};
ghost use Rattle.view.specs.Numbers.{view_number, view_place};
ghost use Rattle.tally.specs.Saved.{read_saved};
ghost use Rattle.totals.specs.Calls.{answer_to, bytes_left, totals_after, totals_after_view, totals_restored};
ghost use Rattle.totals.specs.Numbers.{number_of, NumberFits};
ghost use Rattle.tally.specs.Lent.{totals_in, totals_out};
ghost use Rattle.numbers.specs.Numbers.{ray_of, view_ray_of, saved_number};
ghost use Rattle.testhost.specs.Entries.{call_of, view_call_of};

use field::Ray;
use numbers::{CASE, cast_number, column_number, hit_number, ray_of, saved_number};
use tally::Totals;
use totals::{Answer, Call, ViewCall, perform_by_value, restore_by_value, view_by_value};
use view::ViewAnswer;

#[tactic(auto, unfolding(view::specs::Numbers::view_number))]
fn view_number(answer: ViewAnswer) -> u64
    ensures { result ≡ view_number answer }
{
    match answer {
        ViewAnswer::Refused(refusal) => refusal.number() as u64,
        ViewAnswer::Hit { mark, probes, .. } => mark as u64 * CASE + probes as u64,
        ViewAnswer::Clear { probes } => 3 * CASE + probes as u64,
        ViewAnswer::Spent { probes, .. } => 4 * CASE + probes as u64,
    }
}

#[tactic(auto, unfolding(view::specs::Numbers::view_place))]
fn place_in(answer: ViewAnswer) -> f32
    ensures { result ≡ view_place answer }
{
    match answer {
        ViewAnswer::Refused(_) | ViewAnswer::Clear { .. } => 0.0,
        ViewAnswer::Hit { entry, .. } => entry,
        ViewAnswer::Spent { place, .. } => place,
    }
}

#[tactic(auto, unfolding(totals::specs::Numbers::number_of, totals::specs::Numbers::NumberFits))]
fn number_of(answer: Answer) -> u64
    requires { NumberFits answer }
    ensures { result ≡ number_of answer }
{
    match answer {
        Answer::FullCast(a) => cast_number(a) as u64,
        Answer::FirstHit(a) => hit_number(a),
        Answer::Column(a) => column_number(a) as u64,
        Answer::MarchingCast(a) => cast_number(a) as u64,
    }
}

#[tactic(auto, unfolding(crate::specs::Entries::call_of))]
fn call_of(which: u32, ray: Ray, budget: u32) -> Call
    ensures { result ≡ call_of which ray budget }
{
    match which {
        0 => Call::FullCast { ray, budget },
        1 => Call::FirstHit { ray, budget },
        2 => Call::Column { ray },
        _ => Call::MarchingCast { ray, budget },
    }
}

// Full cast, first hit, column or marching cast, with the totals read from three numbers and stored there; its number.
#[unsafe(no_mangle)]
pub extern "C" fn testhost_call(
    file: &[u8],
    which: u32,
    ax: i32,
    ay: i32,
    az: i32,
    bx: i32,
    by: i32,
    bz: i32,
    budget: u32,
    buffer: &mut [u8],
    totals: &mut [u64; 3],
) -> u64
    ensures answer { result ≡ number_of
        (answer_to file.now (call_of which (ray_of ax ay az bx by bz) budget) (length buffer.old)) }
    ensures bytes { buffer.new ≡ bytes_left
        file.now (call_of which (ray_of ax ay az bx by bz) budget) buffer.old }
    ensures counted { totals.new ≡ totals_out
        (totals_after file.now (call_of which (ray_of ax ay az bx by bz) budget)
        (length buffer.old) (totals_in totals.old)) }
{
    let call = call_of(which, ray_of(ax, ay, az, bx, by, bz), budget);
    let counted = perform_by_value(file, call, buffer, Totals::from(*totals));
    *totals = counted.totals.into();
    number_of(counted.answer)
}

// Viewer's first hit, with the totals read from three numbers and stored there; its number and its place.
#[unsafe(no_mangle)]
pub extern "C" fn testhost_view(
    file: &[u8],
    ax: f32,
    ay: f32,
    az: f32,
    bx: f32,
    by: f32,
    bz: f32,
    budget: u32,
    place: &mut [f32; 1],
    totals: &mut [u64; 3],
) -> u64
    ensures answer { result ≡ view_number (viewer_first_hit file.now (view_ray_of ax ay az bx by bz) budget) }
    ensures place { place.new ≡ view_place (viewer_first_hit file.now (view_ray_of ax ay az bx by bz) budget) ∷ [] }
    ensures counted { totals.new ≡ totals_out
        (totals_after_view file.now (view_call_of (view_ray_of ax ay az bx by bz) budget) (totals_in totals.old)) }
{
    let call = ViewCall {
        ray: ray_of(ax, ay, az, bx, by, bz),
        budget,
    };
    let counted = view_by_value(file, call, Totals::from(*totals));
    *totals = counted.totals.into();
    let answer = counted.answer;
    *place = [place_in(answer)];
    view_number(answer)
}

// A saved record, read into the totals in three numbers; its number.
#[unsafe(no_mangle)]
pub extern "C" fn testhost_restore(saved: &[u8], totals: &mut [u64; 3]) -> u32
    ensures answer { result ≡ saved_number (read_saved saved.now) }
    ensures restored { totals.new ≡ totals_out (totals_restored saved.now (totals_in totals.old)) }
{
    let restored = restore_by_value(saved, Totals::from(*totals));
    *totals = restored.totals.into();
    saved_number(restored.answer)
}

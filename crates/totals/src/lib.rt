// The casting calls: lent no totals, handed them by value, and, in two thin functions, lent them (document 01, "Calls"; document 02,
// P5); and the reading of a saved record into the totals, by value and lent (document 02, P4).

#![tactic(auto)]

ghost use Rattle.std.specs.Prelude.{◌≡◌, length};
ghost use Rattle.tally.specs.Counts.{after_tally};
ghost use Rattle.totals.specs.Calls.{tally_of, Performed, totals_after, Viewed, totals_after_view, Answered, totals_restored};

use cast::{column, first_hit, full_cast};
use field::Ray;
use halving::{Cast, FirstHit};
use march::marching_cast;
use record::Refusal;
use tally::{Tallied, Totals, count, read_saved, restored};
use view::{ViewAnswer, ViewRay, viewer_first_hit};

// A call on a ray in whole steps.
#[derive(Clone, Copy)]
pub enum Call {
    FullCast { ray: Ray, budget: u32 },
    FirstHit { ray: Ray, budget: u32 },
    Column { ray: Ray },
    MarchingCast { ray: Ray, budget: u32 },
}

// Its answer.
#[derive(Clone, Copy)]
pub enum Answer {
    FullCast(Result<Cast, Refusal>),
    FirstHit(Result<FirstHit, Refusal>),
    Column(Result<u32, Refusal>),
    MarchingCast(Result<Cast, Refusal>),
}

// A call of the viewer's first hit.
#[derive(Clone, Copy)]
pub struct ViewCall {
    pub ray: ViewRay,
    pub budget: u32,
}

// An answer, and the totals after it.
#[derive(Clone, Copy)]
pub struct Counted<A> {
    pub answer: A,
    pub totals: Totals,
}

// ---- the totals after an answer

// A marching cast adds what a full cast does.
impl Tallied for Answer {
    ghost tally = { tally_of };

    #[tactic(auto, unfolding(crate::specs::Calls::tally_of))]
    fn tally(self) -> Option<u32> {
        match self {
            Answer::FullCast(a) => a.tally(),
            Answer::FirstHit(a) => a.tally(),
            Answer::Column(a) => a.tally(),
            Answer::MarchingCast(a) => a.tally(),
        }
    }
}

fn count_answer<A: Tallied>(totals: Totals, answer: A) -> Totals
    ensures { result ≡ after_tally totals (A.tally answer) }
{
    count(totals, answer.tally())
}

// ---- the calls, lent no totals

// Full cast, first hit, column or marching cast.
#[tactic(auto, unfolding(crate::specs::Calls::answer_to, crate::specs::Calls::bytes_left, crate::specs::Calls::Demanded))]
pub fn perform(file: &[u8], call: Call, buffer: &mut [u8]) -> Answer
    ensures { Performed file.now call buffer.old result buffer.new }
{
    match call {
        Call::FullCast { ray, budget } => Answer::FullCast(full_cast(file, ray, budget, buffer)),
        Call::FirstHit { ray, budget } => Answer::FirstHit(first_hit(file, ray, budget)),
        Call::Column { ray } => Answer::Column(column(file, ray, buffer)),
        Call::MarchingCast { ray, budget } => {
            Answer::MarchingCast(marching_cast(file, ray, budget, buffer))
        }
    }
}

// Viewer's first hit.
#[tactic(auto, unfolding(crate::specs::Calls::view_to))]
pub fn view(file: &[u8], call: ViewCall) -> ViewAnswer
    ensures { Viewed file.now call result }
{
    viewer_first_hit(file, call.ray, call.budget)
}

// ---- the calls, handed the totals by value: each lends a record of its own to the call that is lent the totals

// Full cast, first hit, column or marching cast, and the totals after it.
pub fn perform_by_value(
    file: &[u8],
    call: Call,
    buffer: &mut [u8],
    mut totals: Totals,
) -> Counted<Answer>
    ensures performed { Performed file.now call buffer.old result.answer buffer.new }
    ensures counted { result.totals ≡ totals_after file.now call (length buffer.old) totals }
{
    let answer = perform_counted(file, call, buffer, &mut totals);
    Counted { answer, totals }
}

// Viewer's first hit, and the totals after it.
pub fn view_by_value(file: &[u8], call: ViewCall, mut totals: Totals) -> Counted<ViewAnswer>
    ensures viewed { Viewed file.now call result.answer }
    ensures counted { result.totals ≡ totals_after_view file.now call totals }
{
    let answer = view_counted(file, call, &mut totals);
    Counted { answer, totals }
}

// ---- the calls, lent the totals

// Full cast, first hit, column or marching cast; the lent totals are then those after it.
#[tactic(auto, unfolding(crate::specs::Calls::totals_after))]
pub fn perform_counted(file: &[u8], call: Call, buffer: &mut [u8], totals: &mut Totals) -> Answer
    ensures performed { Performed file.now call buffer.old result buffer.new }
    ensures counted { totals.new ≡ totals_after file.now call (length buffer.old) totals.old }
{
    let answer = perform(file, call, buffer);
    *totals = count_answer(*totals, answer);
    answer
}

// Viewer's first hit; the lent totals are then those after it.
#[tactic(auto, unfolding(crate::specs::Calls::totals_after_view))]
pub fn view_counted(file: &[u8], call: ViewCall, totals: &mut Totals) -> ViewAnswer
    ensures viewed { Viewed file.now call result }
    ensures counted { totals.new ≡ totals_after_view file.now call totals.old }
{
    let answer = view(file, call);
    *totals = count_answer(*totals, answer);
    answer
}

// ---- a saved record, read into the totals

// Handed them by value: a record of its own is lent to the call that is lent the totals.
pub fn restore_by_value(saved: &[u8], mut totals: Totals) -> Counted<Result<Totals, Refusal>>
    ensures answered { Answered saved.now result.answer }
    ensures restored { result.totals ≡ totals_restored saved.now totals }
{
    let answer = restore(saved, &mut totals);
    Counted { answer, totals }
}

// Lent them; the lent totals are then those after it.
#[tactic(auto, unfolding(crate::specs::Calls::totals_restored))]
pub fn restore(saved: &[u8], totals: &mut Totals) -> Result<Totals, Refusal>
    ensures answered { Answered saved.now result }
    ensures restored { totals.new ≡ totals_restored saved.now totals.old }
{
    let answer = read_saved(saved);
    *totals = restored(*totals, answer);
    answer
}

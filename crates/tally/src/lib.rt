// The running totals by value: what each answer adds to them, the totals after it, and the reading of a saved record (document 01,
// "Calls"; document 02, P4).

#![tactic(auto)]

ghost use Rattle.std.specs.Prelude.{◌≡◌, ◌+◌, ℕ, Option, length};
ghost use Rattle.tally.specs.Counts.{capped, after_tally, cast_tally, hit_tally, column_tally, view_tally};
ghost use Rattle.tally.specs.Lent.{totals_in, totals_out};
ghost use Rattle.tally.specs.Saved.{saved_totals, read_saved, SavedSays, after_saved};

use halving::{Cast, FirstHit};
use record::{Refusal, ask, u32_at};
use view::ViewAnswer;

// The running totals.
#[derive(Clone, Copy)]
pub struct Totals {
    pub casts: u64,
    pub probes: u64,
    pub refusals: u64,
}

// The same as a host in C lends them.
impl From<[u64; 3]> for Totals {
    ghost from_gives = { λ lent totals. totals ≡ totals_in lent };

    #[tactic(auto, unfolding(crate::specs::Lent::totals_in))]
    fn from([casts, probes, refusals]: [u64; 3]) -> Totals {
        Totals {
            casts,
            probes,
            refusals,
        }
    }
}

impl From<Totals> for [u64; 3] {
    ghost from_gives = { λ totals lent. lent ≡ totals_out totals };

    fn from(totals: Totals) -> [u64; 3] {
        [totals.casts, totals.probes, totals.refusals]
    }
}

// A sum that stays at the ceiling, 2⁶⁴ - 1.
#[tactic(auto, unfolding(crate::specs::Counts::capped))]
fn capped_sum(total: u64, more: u64) -> u64
    ensures { result ≡ capped (total + more) }
{
    total.saturating_add(more)
}

// The totals after a call that made so many probes, or was refused.
#[tactic(auto, unfolding(crate::specs::Counts::after_tally))]
pub fn count(totals: Totals, tally: Option<u32>) -> Totals
    ensures { result ≡ after_tally totals tally }
{
    match tally {
        Some(probes) => Totals {
            casts: capped_sum(totals.casts, 1),
            probes: capped_sum(totals.probes, probes as u64),
            ..totals
        },
        None => Totals {
            refusals: capped_sum(totals.refusals, 1),
            ..totals
        },
    }
}

// What an answer adds: its probes, or none if it is refused.
pub trait Tallied {
    ghost tally: { Self → Option ℕ };

    fn tally(self) -> Option<u32>
        ensures { result ≡ tally self };
}

impl Tallied for Result<Cast, Refusal> {
    ghost tally = { cast_tally };

    #[tactic(auto, unfolding(crate::specs::Counts::cast_tally))]
    fn tally(self) -> Option<u32> {
        let cast = self.ok()?;
        match cast {
            Cast::Complete { probes } | Cast::Spent { probes, .. } => Some(probes),
        }
    }
}

impl Tallied for Result<FirstHit, Refusal> {
    ghost tally = { hit_tally };

    #[tactic(auto, unfolding(crate::specs::Counts::hit_tally))]
    fn tally(self) -> Option<u32> {
        let found = self.ok()?;
        match found {
            FirstHit::Hit { probes, .. }
            | FirstHit::Clear { probes }
            | FirstHit::Spent { probes, .. } => Some(probes),
        }
    }
}

impl Tallied for Result<u32, Refusal> {
    ghost tally = { column_tally };

    #[tactic(auto, unfolding(crate::specs::Counts::column_tally))]
    fn tally(self) -> Option<u32> {
        self.ok()
    }
}

impl Tallied for ViewAnswer {
    ghost tally = { view_tally };

    #[tactic(auto, unfolding(crate::specs::Counts::view_tally))]
    fn tally(self) -> Option<u32> {
        match self {
            ViewAnswer::Refused(_) => None,
            ViewAnswer::Hit { probes, .. }
            | ViewAnswer::Clear { probes }
            | ViewAnswer::Spent { probes, .. } => Some(probes),
        }
    }
}

// ---- a saved record

// The three numbers in its bytes.
#[tactic(auto, unfolding(crate::specs::Saved::saved_totals))]
fn saved_totals(saved: &[u8]) -> Totals
    requires { length saved.now ≡ 12 }
    ensures { result ≡ saved_totals saved.now }
{
    Totals {
        casts: u32_at(saved, 0) as u64,
        probes: u32_at(saved, 4) as u64,
        refusals: u32_at(saved, 8) as u64,
    }
}

// Question 18, and the totals.
pub fn read_saved(saved: &[u8]) -> Result<Totals, Refusal>
    ensures answer { result ≡ read_saved saved.now }
    ensures says { SavedSays saved.now result }
{
    ask(Refusal::SavedLength, saved.len() == 12)?;
    Ok(saved_totals(saved))
}

// The record in use after a saved one: the saved totals, or, where it is refused, what it was.
#[tactic(auto, unfolding(crate::specs::Saved::after_saved))]
pub fn restored(totals: Totals, saved: Result<Totals, Refusal>) -> Totals
    ensures { result ≡ after_saved totals saved }
{
    saved.unwrap_or(totals)
}

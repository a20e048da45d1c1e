// What a search works on.

ghost use Rattle.bounds.specs.Probe.{Searchable};
ghost use Rattle.bounds.proofs.Searchables.{searchable_prop};

use part::Summary;

// What stays the same through a search: the prepared numbers, the part, the number of ticks of the ray and the budget.
#[derive(Clone, Copy)]
pub struct Search<'a> {
    pub prepared: &'a [i64],
    pub part: Summary,
    pub ticks: usize,
    pub budget: u32,
    pub ghost searchable: { Searchable prepared.now part ticks } by { searchable_prop prepared.now part ticks },
}

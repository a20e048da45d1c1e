// Casts of a ray through a part file's tree: full cast, first hit and column, each from a file's bytes to its answer and its bytes
// (document 01, "Calls", questions 12 and 14; document 02, P6 and P8).

#![tactic(auto)]

ghost use Rattle.std.specs.Prelude.{◌≡◌, ◌++◌, ◌+◌, ◌*◌, ◌/◌, ◌^◌, ◌≤◌, ◌<◌, length, drop};
ghost use Rattle.std.proofs.lemmas.List.Edits.{sets};
ghost use Rattle.field.specs.Solid.{solid_of};
ghost use Rattle.field.specs.Bounds.{state_mark};
ghost use Rattle.loading.specs.Loading.{loaded_ray};
ghost use Rattle.halving.specs.Halving.{probe_count, span_marks};
ghost use Rattle.halving.specs.Search.{Halvable, state_in};
ghost use Rattle.cast.specs.Ticks.{exponent};
ghost use Rattle.cast.specs.Column.{column_bytes, middle_in, tick_bit, bit_in, packed, span_bit, SpanBits};
ghost use Rattle.cast.specs.Questions.{check_buffer};
ghost use Rattle.cast.specs.Calls.{full_cast, marks_left, first_hit, column_answer, bits_left};
ghost use Rattle.cast.specs.Demands.{CastDemands, HitDemands, ColumnDemands};

use bounds::{HELD, NO_BOUNDS, span_solid};
use field::{Bounds, Ray, Span, State};
use halving::{Cast, FirstHit, Search, cast_ticks, fill, hit_ticks, probe};
use loading::{PREPARED, load_ray};
use part::Summary;
use record::{Refusal, ask};

// "A ray […] is cut into 1,024 equal ticks": two to the power LEVEL.
pub const TICKS: usize = 1024;

pub const LEVEL: usize = 10;

// A budget that is always enough for as many.
pub const ENOUGH: u32 = 2047;

// A column's bytes, of eight ticks each: two to the power COLUMN_LEVEL.
pub const COLUMN: usize = 128;

const COLUMN_LEVEL: usize = 7;

// What a cast of at most eight ticks gives: their bits, the first one's lowest, and the probes.
#[derive(Clone, Copy)]
struct ByteCast {
    bits: u8,
    probes: u32,
}

// ---- the questions

// Questions 1 to 12, then 14, with the prepared numbers that questions 1 to 12 leave.
pub fn load_buffer(
    file: &[u8],
    ray: Ray,
    need: usize,
    room: usize,
    out: &mut [i64; PREPARED],
) -> Result<Summary, Refusal>
    ensures answer { result ≡ check_buffer file.now ray need room }
    ensures numbers { out.new ≡ loaded_ray file.now ray out.old }
{
    let part = load_ray(file, ray, out)?;
    ask(Refusal::Buffer, need <= room)?;
    Ok(part)
}

// ---- a column's bits

// Whether the middle of tick t is solid. Here and below, the lent array `held` is working space.
fn middle_solid(held: &mut [Bounds; HELD], s: &Search, t: usize) -> bool
    requires t_lt_ticks { (t < s.now.ticks) × (s.now.ticks ≤ 2048) }
    ensures { result ≡ middle_in s.now t }
{
    let place = (2 * t + 1) as u64;
    let span = Span {
        from: place,
        to: place,
        ticks: (2 * s.ticks) as u64,
    };
    span_solid(held, s.prepared, s.part, span)
}

// Eight bits, each that of tick t in this state: 1 if it is inside, or crossing and its middle is solid.
#[tactic(auto, unfolding(crate::specs::Column::tick_bit))]
fn tick_byte(held: &mut [Bounds; HELD], s: &Search, t: usize, state: State) -> u8
    requires t_lt_ticks { (t < s.now.ticks) × (s.now.ticks ≤ 2048) }
    ensures { result ≡ 255 * tick_bit (state_mark state) (middle_in s.now t) }
{
    match state {
        State::Inside => 255,
        State::Crossing if middle_solid(held, s, t) => 255,
        _ => 0,
    }
}

// The bits of n ticks and of n more after them.
fn joined(low: u8, high: u8, n: usize) -> u8
    requires { (n ≤ 4) × (low < 2 ^ n) × (high < 2 ^ n) }
    ensures { result ≡ low + high * 2 ^ n }
{
    low + (high << n)
}

// Casts the len ticks from tick first on, two to the power level and at most eight.
fn byte_span(
    held: &mut [Bounds; HELD],
    s: &Search,
    first: usize,
    len: usize,
    level: usize,
) -> ByteCast
    requires halvable { Halvable s.now.ticks first len level }
    requires level_bound { (level ≤ 3) × (s.now.ticks ≤ 2048) }
    ensures { SpanBits (state_in s.now) (middle_in s.now) level first len result }
{
    match probe(held, s, first, len) {
        State::Crossing if level > 0 => {
            let half = len / 2;
            let left = byte_span(held, s, first, half, level - 1);
            let right = byte_span(held, s, first + half, half, level - 1);
            ByteCast {
                bits: joined(left.bits, right.bits, half),
                probes: 1 + left.probes + right.probes,
            }
        }
        state => ByteCast {
            bits: tick_byte(held, s, first, state) >> (8 - len),
            probes: 1,
        },
    }
}

// Casts the ticks of the len bytes from byte first on, two to the power level; answers the probes.
fn column_span(
    out: &mut [u8],
    held: &mut [Bounds; HELD],
    s: &Search,
    first: usize,
    len: usize,
    level: usize,
) -> u32
    requires halvable { Halvable (s.now.ticks / 8) first len level }
    requires ticks_bound { (s.now.ticks ≤ 2048) × (first + len ≤ length out.old) }
    ensures probes { result ≡ probe_count (state_in s.now) (level + 3) (8 * first) }
    ensures bytes { out.new ≡ sets out.old first
        (packed (span_bit (state_in s.now) (middle_in s.now) (level + 3) (8 * first)) len) }
{
    let tick = 8 * first;
    if level == 0 {
        let byte = byte_span(held, s, tick, 8, 3);
        out[first] = byte.bits;
        return byte.probes;
    }
    match probe(held, s, tick, 8 * len) {
        State::Crossing => {
            let half = len / 2;
            let left = column_span(out, held, s, first, half, level - 1);
            let right = column_span(out, held, s, first + half, half, level - 1);
            1 + left + right
        }
        state => {
            fill(out, first, len, tick_byte(held, s, tick, state));
            1
        }
    }
}

// A whole ray's column; answers the probes.
fn cast_column(out: &mut [u8], held: &mut [Bounds; HELD], s: &Search) -> u32
    requires ticks_value { s.now.ticks ≡ 2 ^ exponent }
    requires column_bytes_in_bounds { column_bytes ≤ length out.old }
    ensures probes { result ≡ probe_count (state_in s.now) exponent 0 }
    ensures bytes { out.new
        ≡ packed (bit_in s.now (span_marks (state_in s.now) exponent 0)) column_bytes
        ++ drop column_bytes out.old }
{
    column_span(out, held, s, 0, COLUMN, COLUMN_LEVEL)
}

// ---- the calls

// Full cast: every tick's mark, as far as the budget goes.
pub fn full_cast(file: &[u8], ray: Ray, budget: u32, marks: &mut [u8]) -> Result<Cast, Refusal>
    ensures answer { result ≡ full_cast file.now ray budget (length marks.old) }
    ensures bytes { marks.new ≡ marks_left file.now ray budget marks.old }
    ensures demands { CastDemands (solid_of file.now) ray exponent budget result marks.new }
{
    let mut prepared = [0i64; PREPARED];
    let mut held = [NO_BOUNDS; HELD];
    let part = load_buffer(file, ray, TICKS, marks.len(), &mut prepared)?;
    let s = Search {
        prepared: &prepared[..],
        part,
        ticks: TICKS,
        budget,
    };
    Ok(cast_ticks(marks, &mut held, &s, LEVEL))
}

// First hit: the first tick that is not empty.
pub fn first_hit(file: &[u8], ray: Ray, budget: u32) -> Result<FirstHit, Refusal>
    ensures answer { result ≡ first_hit file.now ray budget }
    ensures demands { HitDemands (solid_of file.now) ray exponent budget result }
{
    let mut prepared = [0i64; PREPARED];
    let mut held = [NO_BOUNDS; HELD];
    let part = load_ray(file, ray, &mut prepared)?;
    let s = Search {
        prepared: &prepared[..],
        part,
        ticks: TICKS,
        budget,
    };
    Ok(hit_ticks(&mut held, &s, LEVEL))
}

// Column: a bit for each tick, 1 if it is inside, or crossing and its middle is solid; and the probes.
pub fn column(file: &[u8], ray: Ray, bits: &mut [u8]) -> Result<u32, Refusal>
    ensures answer { result ≡ column_answer file.now ray (length bits.old) }
    ensures bytes { bits.new ≡ bits_left file.now ray bits.old }
    ensures demands { ColumnDemands (solid_of file.now) ray exponent result bits.new }
{
    let mut prepared = [0i64; PREPARED];
    let mut held = [NO_BOUNDS; HELD];
    let part = load_buffer(file, ray, COLUMN, bits.len(), &mut prepared)?;
    let s = Search {
        prepared: &prepared[..],
        part,
        ticks: TICKS,
        budget: ENOUGH,
    };
    Ok(cast_column(bits, &mut held, &s))
}

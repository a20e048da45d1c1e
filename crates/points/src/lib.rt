// A point of a part on a ray: whether a span of the ray comes within its radius, and its bounds over the span (document 01, "Bounds"; document 02,
// P3 and P9).

#![tactic(auto)]

ghost use Rattle.std.specs.Prelude.{◌≡◌, cond, ◌||◌, ◌^◌, ◌≤◌, ◌<◌, ltb, pos, nat_abs, ◌≤ℤ◌};
ghost use Rattle.exact.specs.Range.{Small};
ghost use Rattle.field.specs.Solid.{kernel_of};
ghost use Rattle.field.specs.Bounds.{distance_at, foot_inside, foot_distance, low_q, high_q, scaled_square, weighted, point_bounds};
ghost use Rattle.field.specs.Reach.{nearer_at, reaches};
ghost use Rattle.points.specs.Ranges.{PreparedRanges, SpanRanges};
ghost use Rattle.points.specs.Peak.{peak_of, ReachedRanges};

use field::{Bounds, Prepared, Span};
use part::Summary;

// A point that a ray reaches, and 65536 u, rounded up, at the place of the ray that is nearest the centre: 0 where that is not strictly inside.
#[derive(Clone, Copy)]
pub struct Reached {
    pub point: Prepared,
    pub peak: i64,
}

// ---- distances

// The squared distance at the place t/ticks, times the square of ticks.
fn distance_at(a: i64, p: Prepared, t: u64, ticks: u64) -> u64
    requires prepared_ranges { PreparedRanges a p }
    requires t_bound { (t ≤ 4096) × (ticks ≤ 4096) }
    ensures { result ≡ distance_at a p t ticks }
{
    let n = t as i64;
    let d = ticks as i64;
    (p.e * (d * d) + n * (2 * (p.m * d) + a * n)) as u64
}

// Whether the place nearest the centre is strictly inside the span.
fn foot_inside(a: i64, p: Prepared, s: Span) -> bool
    requires prepared_ranges { PreparedRanges a p }
    requires span_ranges { SpanRanges s }
    ensures { result ≡ foot_inside a p s }
{
    let foot = -(p.m * s.ticks as i64);
    s.from as i64 * a < foot && foot < s.to as i64 * a
}

// The squared distance there, times a.
fn foot_distance(a: i64, p: Prepared) -> u64
    requires { PreparedRanges a p }
    ensures { result ≡ foot_distance a p }
{
    (p.e * a - p.m * p.m) as u64
}

// r² k
fn scaled_square(p: Prepared, k: u64) -> u64
    requires pos_bound { (pos 1 ≤ℤ p.square) × (p.square ≤ℤ pos (2 ^ 20)) }
    requires k_nonzero { (0 < k) × (k ≤ 2 ^ 26) }
    ensures { (result ≡ scaled_square p k) × (0 < result) × (result ≤ 2 ^ 46) }
{
    p.square as u64 * k
}

// The squared radius, times a.
fn foot_radius(a: i64, p: Prepared) -> u64
    requires { PreparedRanges a p }
    ensures { result ≡ scaled_square p (nat_abs a) }
{
    (p.square * a) as u64
}

// ---- in reach

// Whether the place t/ticks is nearer the centre than the radius.
fn nearer_at(a: i64, p: Prepared, t: u64, ticks: u64) -> bool
    requires prepared_ranges { PreparedRanges a p }
    requires t_bound { (t ≤ 4096) × (0 < ticks) × (ticks ≤ 4096) }
    ensures { result ≡ nearer_at a p t ticks }
{
    distance_at(a, p, t, ticks) < scaled_square(p, ticks * ticks)
}

// Whether some place of the span is nearer the centre than the radius. Where the ray's whole line is farther, none is. Nothing is divided.
pub fn reaches(a: i64, p: Prepared, s: Span) -> bool
    requires prepared_ranges { PreparedRanges a p }
    requires span_ranges { SpanRanges s }
    ensures { result ≡ reaches a p s }
{
    let distance = foot_distance(a, p);
    let radius = foot_radius(a, p);
    if radius < distance {
        false
    } else if foot_inside(a, p, s) {
        distance < radius
    } else {
        nearer_at(a, p, s.from, s.ticks) || nearer_at(a, p, s.to, s.ticks)
    }
}

// The same of a point that the whole ray reaches, by whether the nearest place is strictly inside the span, by r² and by the squared distances at its
// ends, all times the square of the ticks.
fn comes_within(foot: bool, whole: u64, i: u64, j: u64) -> bool
    ensures { result ≡ (foot || (ltb i whole || ltb j whole)) }
{
    foot || i < whole || j < whole
}

// ---- bounds

// 65536 (1 - d/s) rounded down, and 0 where d is s or more.
#[tactic(auto, using(field::proofs::Quotients::low_q_zero), unfolding(field::specs::Bounds::low_q))]
fn low_q(s: u64, d: u64) -> u64
    requires { (0 < s) × (s ≤ 2 ^ 46) }
    ensures { result ≡ low_q s d }
{
    if s <= d { 0 } else { 65536 * (s - d) / s }
}

// The same, rounded up.
#[tactic(auto, using(field::proofs::Quotients::high_q_zero), unfolding(field::specs::Bounds::high_q, exact::specs::Rounding::ceil))]
fn high_q(s: u64, d: u64) -> u64
    requires { (0 < s) × (s ≤ 2 ^ 46) }
    ensures { result ≡ high_q s d }
{
    if s <= d {
        0
    } else {
        (65536 * (s - d) + (s - 1)) / s
    }
}

// 65536 times u, rounded up, at the place nearest the centre.
pub fn peak(a: i64, p: Prepared) -> i64
    requires { PreparedRanges a p }
    ensures { result ≡ pos (peak_of a p) }
{
    let whole = Span {
        from: 0,
        to: 1,
        ticks: 1,
    };
    if foot_inside(a, p, whole) {
        high_q(foot_radius(a, p), foot_distance(a, p)) as i64
    } else {
        0
    }
}

// 65536 times the greatest u, rounded up: at the nearest place where that is inside, and else at the nearer end.
fn greatest_q(foot: bool, peak: i64, whole: u64, d: u64) -> u64
    requires pos_bound { (pos 0 ≤ℤ peak) × Small 65536 peak }
    requires whole_nonzero { (0 < whole) × (whole ≤ 2 ^ 46) }
    ensures { result ≡ cond foot (nat_abs peak) (high_q whole d) }
{
    if foot { peak as u64 } else { high_q(whole, d) }
}

// The weight times a lesser and a greater size.
fn weigh(w: i64, x: u64, y: u64) -> Bounds
    requires { Small 4096 w × (x ≤ 2 ^ 32) × (y ≤ 2 ^ 32) }
    ensures { result ≡ weighted w x y }
{
    if w < 0 {
        Bounds {
            low: w * y as i64,
            high: w * x as i64,
        }
    } else {
        Bounds {
            low: w * x as i64,
            high: w * y as i64,
        }
    }
}

// The weight times the sizes of a lesser and a greater q: q², or of degree 6 q³/65536, rounded down and up.
fn weigh_sizes(part: Summary, w: i64, low: u64, high: u64) -> Bounds
    requires { Small 4096 w × (low ≤ 65536) × (high ≤ 65536) }
    ensures { result ≡ weighted w ((kernel_of part).low low) ((kernel_of part).high high) }
{
    match part.version {
        2 => weigh(
            w,
            low * low * low / 65536,
            (high * high * high + 65535) / 65536,
        ),
        _ => weigh(w, low * low, high * high),
    }
}

// The bounds of a point over a span. Out of reach, both q are 0.
pub fn span_bounds(part: Summary, a: i64, p: Reached, s: Span) -> Bounds
    requires reached_ranges { ReachedRanges a p }
    requires span_ranges { SpanRanges s }
    ensures { result ≡ point_bounds (kernel_of part) a s p.point }
{
    let point = p.point;
    let whole = scaled_square(point, s.ticks * s.ticks);
    let i = distance_at(a, point, s.from, s.ticks);
    let j = distance_at(a, point, s.to, s.ticks);
    let foot = foot_inside(a, point, s);
    if comes_within(foot, whole, i, j) {
        let nearer = i.min(j);
        let farther = i.max(j);
        let low = low_q(whole, farther);
        let high = greatest_q(foot, p.peak, whole, nearer);
        weigh_sizes(part, point.weight, low, high)
    } else {
        Bounds { low: 0, high: 0 }
    }
}

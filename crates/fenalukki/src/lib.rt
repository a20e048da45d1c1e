// The entries for hosts in C: functions on a part file's bytes, numbers and lent buffers (document 01, "Calls"; document 02, P2, P4
// and P5). The slicing host's three come first, which are lent no totals. include/fenalukki.h is what a C program includes.

#![tactic(auto)]

ghost use Rattle.std.specs.Prelude.{◌≡◌, length};
ghost use Rattle.cast.specs.Calls.{full_cast, first_hit, column_answer};
ghost use Rattle.march.specs.Calls.{marching_cast};
ghost use Rattle.view.specs.Call.{viewer_first_hit};
ghost use Rattle.tally.specs.Counts.{cast_tally, hit_tally, column_tally, view_tally};
ghost use Rattle.numbers.specs.Numbers.{place_at, ray_of, view_ray_of, lent_after};
ghost use Rattle.fenalukki.specs.Host.{HostCast, HostHit, HostColumn, HostCheck, HostBounds, HostView, HostRead, HostWrite};
ghost use Rattle.fenalukki.specs.Host.{HostRestore, HostMarch};

use bounds::place_bounds;
use cast::{column, first_hit, full_cast};
use march::marching_cast;
use nodes::load;
use numbers::{
    bounds_number, cast_number, check_number, column_number, count_lent, hit_number, place_at,
    put_saved, ray_of, saved_number, write_number,
};
use part::check;
use tally::{Tallied, read_saved};
use view::viewer_ticks;
use writer::write;

// Full cast: 1,024 mark bytes, as far as the budget goes.
#[unsafe(no_mangle)]
pub extern "C" fn fenalukki_full_cast(
    file: &[u8],
    ax: i32,
    ay: i32,
    az: i32,
    bx: i32,
    by: i32,
    bz: i32,
    budget: u32,
    marks: &mut [u8],
) -> u32
    ensures { HostCast file.now (ray_of ax ay az bx by bz) budget marks.old result marks.new }
{
    cast_number(full_cast(file, ray_of(ax, ay, az, bx, by, bz), budget, marks))
}

// First hit: the first tick that is not empty.
#[unsafe(no_mangle)]
pub extern "C" fn fenalukki_first_hit(
    file: &[u8],
    ax: i32,
    ay: i32,
    az: i32,
    bx: i32,
    by: i32,
    bz: i32,
    budget: u32,
) -> u64
    ensures { HostHit file.now (ray_of ax ay az bx by bz) budget result }
{
    hit_number(first_hit(file, ray_of(ax, ay, az, bx, by, bz), budget))
}

// Column: 128 bytes, a bit for each tick.
#[unsafe(no_mangle)]
pub extern "C" fn fenalukki_column(
    file: &[u8],
    ax: i32,
    ay: i32,
    az: i32,
    bx: i32,
    by: i32,
    bz: i32,
    bits: &mut [u8],
) -> u32
    ensures { HostColumn file.now (ray_of ax ay az bx by bz) bits.old result bits.new }
{
    column_number(column(file, ray_of(ax, ay, az, bx, by, bz), bits))
}

// ---- beside these

// The check of a file: its version, node count and iso-value.
#[unsafe(no_mangle)]
pub extern "C" fn fenalukki_check(file: &[u8]) -> u64
    ensures { HostCheck file.now result }
{
    check_number(check(file))
}

// The bounds at one whole-step place.
#[unsafe(no_mangle)]
pub extern "C" fn fenalukki_place_bounds(
    file: &[u8],
    x: i32,
    y: i32,
    z: i32,
    bounds: &mut [i64; 2],
) -> u32
    ensures { HostBounds file.now (place_at x y z) bounds.old result bounds.new }
{
    bounds_number(place_bounds(file, place_at(x, y, z)), bounds)
}

// Marching full cast: 1,024 mark bytes, as far as the budget goes.
#[unsafe(no_mangle)]
pub extern "C" fn fenalukki_marching_cast(
    file: &[u8],
    ax: i32,
    ay: i32,
    az: i32,
    bx: i32,
    by: i32,
    bz: i32,
    budget: u32,
    marks: &mut [u8],
) -> u32
    ensures { HostMarch file.now (ray_of ax ay az bx by bz) budget marks.old result marks.new }
{
    cast_number(marching_cast(file, ray_of(ax, ay, az, bx, by, bz), budget, marks))
}

// Viewer's first hit, in ticks.
#[unsafe(no_mangle)]
pub extern "C" fn fenalukki_viewer_first_hit(
    file: &[u8],
    ax: f32,
    ay: f32,
    az: f32,
    bx: f32,
    by: f32,
    bz: f32,
    budget: u32,
) -> u64
    ensures { HostView file.now (view_ray_of ax ay az bx by bz) budget result }
{
    hit_number(viewer_ticks(file, ray_of(ax, ay, az, bx, by, bz), budget))
}

// ---- part files, read and written

// The check of a file, and its nodes' numbers.
#[unsafe(no_mangle)]
pub extern "C" fn fenalukki_read(file: &[u8], numbers: &mut [i32; 3066]) -> u64
    ensures { HostRead file.now numbers.old result numbers.new }
{
    check_number(load(file, numbers))
}

// Records and trailer of a part file, from a place of the buffer on.
#[unsafe(no_mangle)]
pub extern "C" fn fenalukki_write(
    numbers: &[i32],
    iso: u32,
    version: u32,
    buffer: &mut [u8],
    place: usize,
) -> u32
    ensures { HostWrite numbers.now iso version buffer.old place result buffer.new }
{
    write_number(write(numbers, iso, version, buffer, place))
}

// ---- the casting calls, lent the running totals

#[unsafe(no_mangle)]
pub extern "C" fn fenalukki_full_cast_counted(
    file: &[u8],
    ax: i32,
    ay: i32,
    az: i32,
    bx: i32,
    by: i32,
    bz: i32,
    budget: u32,
    marks: &mut [u8],
    totals: &mut [u64; 3],
) -> u32
    ensures called { HostCast file.now (ray_of ax ay az bx by bz) budget marks.old result marks.new }
    ensures counted { totals.new ≡ lent_after
        (cast_tally (full_cast file.now (ray_of ax ay az bx by bz) budget (length marks.old))) totals.old }
{
    let cast = full_cast(file, ray_of(ax, ay, az, bx, by, bz), budget, marks);
    count_lent(cast.tally(), totals);
    cast_number(cast)
}

#[unsafe(no_mangle)]
pub extern "C" fn fenalukki_first_hit_counted(
    file: &[u8],
    ax: i32,
    ay: i32,
    az: i32,
    bx: i32,
    by: i32,
    bz: i32,
    budget: u32,
    totals: &mut [u64; 3],
) -> u64
    ensures called { HostHit file.now (ray_of ax ay az bx by bz) budget result }
    ensures counted { totals.new ≡ lent_after
        (hit_tally (first_hit file.now (ray_of ax ay az bx by bz) budget)) totals.old }
{
    let found = first_hit(file, ray_of(ax, ay, az, bx, by, bz), budget);
    count_lent(found.tally(), totals);
    hit_number(found)
}

#[unsafe(no_mangle)]
pub extern "C" fn fenalukki_column_counted(
    file: &[u8],
    ax: i32,
    ay: i32,
    az: i32,
    bx: i32,
    by: i32,
    bz: i32,
    bits: &mut [u8],
    totals: &mut [u64; 3],
) -> u32
    ensures called { HostColumn file.now (ray_of ax ay az bx by bz) bits.old result bits.new }
    ensures counted { totals.new ≡ lent_after
        (column_tally (column_answer file.now (ray_of ax ay az bx by bz) (length bits.old))) totals.old }
{
    let probed = column(file, ray_of(ax, ay, az, bx, by, bz), bits);
    count_lent(probed.tally(), totals);
    column_number(probed)
}

#[unsafe(no_mangle)]
pub extern "C" fn fenalukki_marching_cast_counted(
    file: &[u8],
    ax: i32,
    ay: i32,
    az: i32,
    bx: i32,
    by: i32,
    bz: i32,
    budget: u32,
    marks: &mut [u8],
    totals: &mut [u64; 3],
) -> u32
    ensures called { HostMarch file.now (ray_of ax ay az bx by bz) budget marks.old result marks.new }
    ensures counted { totals.new ≡ lent_after
        (cast_tally (marching_cast file.now (ray_of ax ay az bx by bz) budget (length marks.old))) totals.old }
{
    let marched = marching_cast(file, ray_of(ax, ay, az, bx, by, bz), budget, marks);
    count_lent(marched.tally(), totals);
    cast_number(marched)
}

#[unsafe(no_mangle)]
pub extern "C" fn fenalukki_viewer_first_hit_counted(
    file: &[u8],
    ax: f32,
    ay: f32,
    az: f32,
    bx: f32,
    by: f32,
    bz: f32,
    budget: u32,
    totals: &mut [u64; 3],
) -> u64
    ensures called { HostView file.now (view_ray_of ax ay az bx by bz) budget result }
    ensures counted { totals.new ≡ lent_after
        (view_tally (viewer_first_hit file.now (view_ray_of ax ay az bx by bz) budget)) totals.old }
{
    let seen = viewer_ticks(file, ray_of(ax, ay, az, bx, by, bz), budget);
    count_lent(seen.tally(), totals);
    hit_number(seen)
}

// A saved record of totals, read into those in use.
#[unsafe(no_mangle)]
pub extern "C" fn fenalukki_restore_totals(saved: &[u8], totals: &mut [u64; 3]) -> u32
    ensures { HostRestore saved.now totals.old result totals.new }
{
    let answer = read_saved(saved);
    put_saved(answer, totals);
    saved_number(answer)
}

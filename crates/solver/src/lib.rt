// The calls in sequence.
#![tactic(auto)]

pub mod step;

ghost use Rattle.std.specs.Prelude.{◌≡◌, ◌&&◌, ℕ, ◌<◌, length};
ghost use Rattle.packing.specs.Ids.{dim2, colour};
ghost use Rattle.numeric.specs.Axes.{axes};
ghost use Rattle.laws.specs.Store.{store};
ghost use Rattle.laws.specs.Refusals.{settle};
ghost use Rattle.grid.specs.Answers.{refused};
ghost use Rattle.grid.specs.Table.{all, finite, good_width, good_step};
ghost use Rattle.particles.specs.Table.{Ready};
ghost use Rattle.scatter.specs.Scatter.{scattered};
ghost use Rattle.solver.specs.Order.{place_at, colour_at, repeated, out_of_turn, turns, order_check, in_order};

use grid::inner::{is_finite_vector, is_step, is_width};
use grid::{Answer, Refusal, Rule};
use numeric::dim2::Vector;
use packing::{Plane, Space};
use particles::inner::checks::{check_lists, check_particles};
use scatter::inner::scatter_at;

// What a scatter is given beside the nodes.
#[derive(Clone, Copy)]
pub(crate) struct Scattering<'a> {
    cell_width: f32,
    dt: f32,
    gravity: Vector,
    regions: usize,
    ids: &'a [u64],
    ranges: &'a [u64],
    particles: usize,
    pf: &'a [f32],
    pw: &'a [u32],
}

// The regions one by one, in an order of their places: each once, colours 0 to 3 in turn. It leaves what the full scatter leaves; or the call is refused, and nothing changes.
pub fn scatter_in_order(
    order: &[u64],
    cell_width: f32,
    dt: f32,
    gravity: Vector,
    regions: usize,
    ids: &[u64],
    ranges: &[u64],
    particles: usize,
    pf: &[f32],
    pw: &[u32],
    nf: &mut [f32],
    nw: &mut [u32],
) -> Answer
    ensures { (result ≡ order_check order.now cell_width dt (axes gravity) regions ids.now ranges.now particles (store pf.now pw.now) (length nf.old) (length nw.old))
        × (store nf.new nw.new ≡ settle (refused result) (store nf.old nw.old) (scattered cell_width dt (axes gravity) ids.now ranges.now (store pf.now pw.now) (store nf.old nw.old))) }
{
    let given = Scattering {
        cell_width,
        dt,
        gravity,
        regions,
        ids,
        ranges,
        particles,
        pf,
        pw,
    };
    check_in_order(order, given, nf.len(), nw.len())?;
    scatter_regions(order, given, nf, nw);
    Ok(())
}

// What the call is refused for. The order's entries are looked at once 1 to 3 are decided, as that takes the square of its length.
fn check_in_order(order: &[u64], given: Scattering, nf: usize, nw: usize) -> Answer
    ensures { let g = given.entry in result ≡ order_check order.now g.cell_width g.dt (axes g.gravity) g.regions g.ids.now g.ranges.now g.particles (store g.pf.now g.pw.now) nf nw }
{
    if order.len() != given.regions {
        return Err(Refusal {
            rule: Rule::Length,
            index: 0,
        });
    }
    check_lists(
        is_set(given),
        Ok(()),
        given.regions,
        given.ids,
        given.ranges,
        given.particles,
        given.pf,
        given.pw,
        nf,
        nw,
    )?;
    check_order(order, given.ids)?;
    check_particles(
        given.cell_width,
        given.ids,
        given.ranges,
        given.pf,
        given.pw,
        given.particles,
    )
}

// Whether the settings of a scatter are good.
pub(crate) fn is_set(given: Scattering) -> bool
    ensures { let g = given.entry in result ≡ (good_width g.cell_width && (good_step g.dt && all finite (axes g.gravity))) }
{
    is_width(given.cell_width) && is_step(given.dt) && is_finite_vector(given.gravity)
}

// What the regions' own calls would make behind their checks, of which none would refuse.
fn scatter_regions(order: &[u64], given: Scattering, nf: &mut [f32], nw: &mut [u32])
    requires { ((i : ℕ) → i < length order.now → place_at order.now i < length given.ids.now) × Ready given.cell_width given.ids.now given.ranges.now (store given.pf.now given.pw.now) (store nf.old nw.old) }
    ensures { let g = given.entry in store nf.new nw.new ≡ in_order g.cell_width g.dt (axes g.gravity) g.ids.now g.ranges.now (store g.pf.now g.pw.now) order.now (length order.now) (store nf.old nw.old) }
{
    for &place in order {
        scatter_at(
            given.cell_width,
            given.dt,
            given.gravity,
            given.ids,
            given.ranges,
            given.pf,
            given.pw,
            place as usize,
            nf,
            nw,
        );
    }
}

// The first entry that is no place of the list, stands there already, or has a colour before that of the entry ahead of it.
fn check_order(order: &[u64], ids: &[u64]) -> Answer
    ensures { result ≡ turns ids.now order.now }
{
    for k in 0..order.len() {
        if is_out_of_turn(order, ids, k) {
            return Err(Refusal {
                rule: Rule::Code,
                index: k,
            });
        }
    }
    Ok(())
}

fn is_out_of_turn(order: &[u64], ids: &[u64], i: usize) -> bool
    requires { i < length order.now }
    ensures { result ≡ out_of_turn ids.now order.now i }
{
    let place = order[i];
    ids.len() as u64 <= place
        || is_repeated(order, i)
        || i != 0 && color_at(ids, place) < color_at(ids, order[i - 1])
}

// Whether an entry stands at an earlier place of the order too. The order is searched anew for each entry, as there is no heap for a set of those before it.
fn is_repeated(order: &[u64], i: usize) -> bool
    requires { i < length order.now }
    ensures { result ≡ repeated order.now i i }
{
    for k in (0..i).rev() {
        if order[k] == order[i] {
            return true;
        }
    }
    false
}

// The colour of the region at a place; beyond the list it is that of the region 0.
fn color_at(ids: &[u64], at: u64) -> u64
    ensures { result ≡ colour_at ids.now at }
{
    color_of(ids.get(at as usize).copied().unwrap_or(0))
}

// A region that has none of the first three colours has the last.
fn color_of(region_id: u64) -> u64
    ensures { result ≡ colour dim2 region_id }
{
    (0..3)
        .find(|&color| Plane::is_in_region_with_color(region_id, color))
        .unwrap_or(3)
}

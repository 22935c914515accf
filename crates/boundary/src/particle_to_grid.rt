// Scatter over the boundary: of all regions, of one, and of each in an order. Only nodes are written to, and only by a call that is done.
ghost use Rattle.std.specs.Prelude.{◌≡◌, length};
ghost use Rattle.numeric.specs.Axes.{axes};
ghost use Rattle.laws.specs.Store.{store};
ghost use Rattle.laws.specs.Refusals.{settle};
ghost use Rattle.grid.specs.Answers.{number_of, index_of, refused, done};
ghost use Rattle.scatter.specs.Scatter.{scattered, region_scattered, place_check, scatter_check};
ghost use Rattle.solver.specs.Order.{order_check};

use crate::answers::Refusal;
use numeric::dim2::Vector;

// Every region's particles, colours 0 to 3 and regions in the list's order; or the call is refused, and nothing changes.
#[unsafe(no_mangle)]
pub extern "C" fn mk_particle_to_grid_scatter2(
    cell_width: f32,
    dt: f32,
    gravity: Vector,
    regions: usize,
    ids: &[u64],
    ranges: &[u64],
    particles: usize,
    particle_floats: &[f32],
    particle_words: &[u32],
    node_floats: &mut [f32],
    node_words: &mut [u32],
) -> Refusal
    ensures { let a = scatter_check done cell_width dt (axes gravity) regions ids.now ranges.now particles (store particle_floats.now particle_words.now) (length node_floats.old) (length node_words.old) in
        (result.number ≡ number_of a) × (result.index ≡ index_of a)
        × (store node_floats.new node_words.new ≡ settle (refused a) (store node_floats.old node_words.old) (scattered cell_width dt (axes gravity) ids.now ranges.now (store particle_floats.now particle_words.now) (store node_floats.old node_words.old))) }
{
    Refusal::from(scatter::particle_to_grid::particle_to_grid_scatter(
        cell_width,
        dt,
        gravity,
        regions,
        ids,
        ranges,
        particles,
        particle_floats,
        particle_words,
        node_floats,
        node_words,
    ))
}

// The particles of the region at a place of the list; or the call is refused, and nothing changes.
#[unsafe(no_mangle)]
pub extern "C" fn mk_particle_to_grid_scatter_region2(
    place: usize,
    cell_width: f32,
    dt: f32,
    gravity: Vector,
    regions: usize,
    ids: &[u64],
    ranges: &[u64],
    particles: usize,
    particle_floats: &[f32],
    particle_words: &[u32],
    node_floats: &mut [f32],
    node_words: &mut [u32],
) -> Refusal
    ensures { let a = scatter_check (place_check place regions) cell_width dt (axes gravity) regions ids.now ranges.now particles (store particle_floats.now particle_words.now) (length node_floats.old) (length node_words.old) in
        (result.number ≡ number_of a) × (result.index ≡ index_of a)
        × (store node_floats.new node_words.new ≡ settle (refused a) (store node_floats.old node_words.old) (region_scattered cell_width dt (axes gravity) ids.now ranges.now (store particle_floats.now particle_words.now) place (store node_floats.old node_words.old))) }
{
    Refusal::from(scatter::particle_to_grid::particle_to_grid_scatter_region(
        place,
        cell_width,
        dt,
        gravity,
        regions,
        ids,
        ranges,
        particles,
        particle_floats,
        particle_words,
        node_floats,
        node_words,
    ))
}

// The regions one by one in an order of their places, each once and colours in turn; or the call is refused, and nothing changes.
#[unsafe(no_mangle)]
pub extern "C" fn mk_scatter_in_order2(
    order: &[u64],
    cell_width: f32,
    dt: f32,
    gravity: Vector,
    regions: usize,
    ids: &[u64],
    ranges: &[u64],
    particles: usize,
    particle_floats: &[f32],
    particle_words: &[u32],
    node_floats: &mut [f32],
    node_words: &mut [u32],
) -> Refusal
    ensures { let a = order_check order.now cell_width dt (axes gravity) regions ids.now ranges.now particles (store particle_floats.now particle_words.now) (length node_floats.old) (length node_words.old) in
        (result.number ≡ number_of a) × (result.index ≡ index_of a)
        × (store node_floats.new node_words.new ≡ settle (refused a) (store node_floats.old node_words.old) (scattered cell_width dt (axes gravity) ids.now ranges.now (store particle_floats.now particle_words.now) (store node_floats.old node_words.old))) }
{
    Refusal::from(solver::scatter_in_order(
        order,
        cell_width,
        dt,
        gravity,
        regions,
        ids,
        ranges,
        particles,
        particle_floats,
        particle_words,
        node_floats,
        node_words,
    ))
}

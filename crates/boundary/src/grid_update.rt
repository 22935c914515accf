// The grid update over the boundary, and clear, scatter and update in turn. Only nodes are written to, and only by a call that is done.
ghost use Rattle.std.specs.Prelude.{◌≡◌, false, length};
ghost use Rattle.numeric.specs.Axes.{axes};
ghost use Rattle.laws.specs.Store.{store};
ghost use Rattle.laws.specs.Refusals.{settle};
ghost use Rattle.grid.specs.Answers.{number_of, index_of, refused};
ghost use Rattle.update.specs.Update.{updated, update_check};
ghost use Rattle.solver.specs.Step.{step_check, stepped};
ghost use Rattle.solver.specs.Clearing.{EmptyElsewhere};

use crate::answers::Refusal;
use numeric::dim2::Vector;

// Locks, then colliders in order, on every node of every listed region; or the call is refused, and nothing changes.
#[unsafe(no_mangle)]
pub extern "C" fn mk_grid_update2(
    cell_width: f32,
    dt: f32,
    boundary_handling: u32,
    simulation_dofs: u32,
    regions: usize,
    ids: &[u64],
    colliders: usize,
    collider_floats: &[f32],
    projection_floats: &[f32],
    projection_words: &[u32],
    node_floats: &mut [f32],
    node_words: &mut [u32],
) -> Refusal
    ensures { let a = update_check cell_width dt boundary_handling simulation_dofs regions ids.now colliders collider_floats.now (store projection_floats.now projection_words.now) (length node_floats.old) (length node_words.old) in
        (result.number ≡ number_of a) × (result.index ≡ index_of a)
        × (store node_floats.new node_words.new ≡ settle (refused a) (store node_floats.old node_words.old) (updated cell_width dt boundary_handling simulation_dofs ids.now colliders collider_floats.now (store projection_floats.now projection_words.now) (store node_floats.old node_words.old))) }
{
    Refusal::from(update::grid_update::grid_update(
        cell_width,
        dt,
        boundary_handling,
        simulation_dofs,
        regions,
        ids,
        colliders,
        collider_floats,
        projection_floats,
        projection_words,
        node_floats,
        node_words,
    ))
}

// The nodes are cleared, the particles of every region scattered, the nodes updated; a node that no particle's stencil reaches is then zero. Or the call is refused, and
// nothing changes.
#[unsafe(no_mangle)]
pub extern "C" fn mk_clear_scatter_update2(
    cell_width: f32,
    dt: f32,
    gravity: Vector,
    boundary_handling: u32,
    simulation_dofs: u32,
    regions: usize,
    ids: &[u64],
    ranges: &[u64],
    particles: usize,
    particle_floats: &[f32],
    particle_words: &[u32],
    colliders: usize,
    collider_floats: &[f32],
    projection_floats: &[f32],
    projection_words: &[u32],
    node_floats: &mut [f32],
    node_words: &mut [u32],
) -> Refusal
    ensures { let a = step_check cell_width dt (axes gravity) boundary_handling simulation_dofs regions ids.now ranges.now particles (store particle_floats.now particle_words.now) colliders collider_floats.now (store projection_floats.now projection_words.now) (length node_floats.old) (length node_words.old) in
        (result.number ≡ number_of a) × (result.index ≡ index_of a)
        × (store node_floats.new node_words.new ≡ settle (refused a) (store node_floats.old node_words.old) (stepped cell_width dt (axes gravity) boundary_handling simulation_dofs regions ids.now ranges.now particles (store particle_floats.now particle_words.now) colliders collider_floats.now (store projection_floats.now projection_words.now) (store node_floats.old node_words.old)))
        × (refused a ≡ false → EmptyElsewhere cell_width ids.now particles (store particle_floats.now particle_words.now) (store node_floats.new node_words.new)) }
{
    Refusal::from(solver::step::clear_scatter_update(
        cell_width,
        dt,
        gravity,
        boundary_handling,
        simulation_dofs,
        regions,
        ids,
        ranges,
        particles,
        particle_floats,
        particle_words,
        colliders,
        collider_floats,
        projection_floats,
        projection_words,
        node_floats,
        node_words,
    ))
}

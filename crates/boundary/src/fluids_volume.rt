// Fluids' volumes over the boundary. Particles and nodes are written to only by a call that is done.
ghost use Rattle.std.specs.Prelude.{◌≡◌, length};
ghost use Rattle.laws.specs.Store.{store};
ghost use Rattle.laws.specs.Refusals.{settle};
ghost use Rattle.grid.specs.Answers.{number_of, index_of, refused};
ghost use Rattle.fluids.specs.Fluids.{particles_after, nodes_after, fluids_check};

use crate::answers::Refusal;

// Every fluid's volume from the mass around it, which is scattered onto the nodes, gathered, and taken off them again; or the call is refused, and nothing changes.
#[unsafe(no_mangle)]
pub extern "C" fn mk_recompute_fluids_volumes2(
    cell_width: f32,
    regions: usize,
    ids: &[u64],
    ranges: &[u64],
    particles: usize,
    particle_floats: &mut [f32],
    particle_words: &mut [u32],
    node_floats: &mut [f32],
    node_words: &mut [u32],
) -> Refusal
    ensures { let a = fluids_check cell_width regions ids.now ranges.now particles (store particle_floats.old particle_words.old) (length node_floats.old) (length node_words.old) in
        (result.number ≡ number_of a) × (result.index ≡ index_of a)
        × (store particle_floats.new particle_words.new ≡ settle (refused a) (store particle_floats.old particle_words.old) (particles_after cell_width ids.now ranges.now particles (store particle_floats.old particle_words.old) (store node_floats.old node_words.old)))
        × (store node_floats.new node_words.new ≡ settle (refused a) (store node_floats.old node_words.old) (nodes_after cell_width ids.now ranges.now particles (store particle_floats.old particle_words.old) (store node_floats.old node_words.old))) }
{
    Refusal::from(fluids::fluids_volume::recompute_fluids_volumes(
        cell_width,
        regions,
        ids,
        ranges,
        particles,
        particle_floats,
        particle_words,
        node_floats,
        node_words,
    ))
}

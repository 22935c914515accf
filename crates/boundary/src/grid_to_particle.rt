// Both halves of gather over the boundary. Only particles are written to, and only by a call that is done.
ghost use Rattle.std.specs.Prelude.{◌≡◌, length};
ghost use Rattle.laws.specs.Store.{store};
ghost use Rattle.laws.specs.Refusals.{settle};
ghost use Rattle.grid.specs.Answers.{number_of, index_of, refused};
ghost use Rattle.gather.specs.Gather.{first_half, second_half, first_check, second_check};

use crate::answers::Refusal;

// Every particle takes velocity, gradient and psi from the nodes of its stencil and moves; or the call is refused, and nothing changes.
#[unsafe(no_mangle)]
pub extern "C" fn mk_grid_to_particle_first_half2(
    cell_width: f32,
    dt: f32,
    modified_eigenerosion: u32,
    regions: usize,
    ids: &[u64],
    ranges: &[u64],
    particles: usize,
    particle_floats: &mut [f32],
    particle_words: &mut [u32],
    node_floats: &[f32],
    node_words: &[u32],
) -> Refusal
    ensures { let a = first_check cell_width dt modified_eigenerosion regions ids.now ranges.now particles (store particle_floats.old particle_words.old) (length node_floats.now) (length node_words.now) in
        (result.number ≡ number_of a) × (result.index ≡ index_of a)
        × (store particle_floats.new particle_words.new ≡ settle (refused a) (store particle_floats.old particle_words.old) (first_half cell_width dt modified_eigenerosion ids.now (store node_floats.now node_words.now) particles (store particle_floats.old particle_words.old))) }
{
    Refusal::from(gather::grid_to_particle::grid_to_particle_first_half(
        cell_width,
        dt,
        modified_eigenerosion,
        regions,
        ids,
        ranges,
        particles,
        particle_floats,
        particle_words,
        node_floats,
        node_words,
    ))
}

// What the host's models say of every particle is settled; or the call is refused, and nothing changes.
#[unsafe(no_mangle)]
pub extern "C" fn mk_grid_to_particle_second_half2(
    particles: usize,
    particle_floats: &mut [f32],
    particle_words: &mut [u32],
    given_floats: &[f32],
    given_words: &[u32],
) -> Refusal
    ensures { let a = second_check particles (store particle_floats.old particle_words.old) (store given_floats.now given_words.now) in
        (result.number ≡ number_of a) × (result.index ≡ index_of a)
        × (store particle_floats.new particle_words.new ≡ settle (refused a) (store particle_floats.old particle_words.old) (second_half (store given_floats.now given_words.now) particles (store particle_floats.old particle_words.old))) }
{
    Refusal::from(gather::grid_to_particle::grid_to_particle_second_half(
        particles,
        particle_floats,
        particle_words,
        given_floats,
        given_words,
    ))
}

// Clear, scatter and update in turn.
ghost use Rattle.std.specs.Prelude.{◌≡◌, false, [], ◌∷◌, ◌*◌, ◌≤◌, length};
ghost use Rattle.numeric.specs.Axes.{axes};
ghost use Rattle.laws.specs.Store.{store};
ghost use Rattle.laws.specs.Refusals.{settle};
ghost use Rattle.grid.specs.Answers.{refused, first};
ghost use Rattle.grid.specs.Table.{flags, numbers, words_per_range};
ghost use Rattle.particles.specs.Particles.{floats_per_particle, words_per_particle};
ghost use Rattle.update.specs.Update.{collider_floats, projection_floats};
ghost use Rattle.solver.specs.Step.{step_check, records_check, stepped};
ghost use Rattle.solver.specs.Clearing.{EmptyElsewhere};

use crate::{Scattering, is_set};
use grid::inner::{
    RANGE_WORDS, check_call, check_flags, check_limits, check_numbers, fits, holds_nodes,
};
use grid::{Answer, Rule};
use numeric::dim2::Vector;
use particles::inner::checks::{check_places, first_particle, holds_particles, is_accepted};
use scatter::inner::scatter_all;
use update::grid_update::{COLLIDER_FLOATS, PROJECTION_FLOATS, grid_update};
use update::inner::{check_own, holds_projections};

// What an update is given beside the list, the nodes and what a scatter is given; settings as the host passed them, since the check looks at these.
#[derive(Clone, Copy)]
struct Updating<'a> {
    boundary_handling: u32,
    simulation_dofs: u32,
    colliders: usize,
    cf: &'a [f32],
    jf: &'a [f32],
    jw: &'a [u32],
}

// The nodes are cleared, the particles scattered, the nodes updated; a node that no particle's stencil reaches is then zero. Or the call is refused, and nothing changes.
pub fn clear_scatter_update(
    cell_width: f32,
    dt: f32,
    gravity: Vector,
    boundary_handling: u32,
    simulation_dofs: u32,
    regions: usize,
    ids: &[u64],
    ranges: &[u64],
    particles: usize,
    pf: &[f32],
    pw: &[u32],
    colliders: usize,
    cf: &[f32],
    jf: &[f32],
    jw: &[u32],
    nf: &mut [f32],
    nw: &mut [u32],
) -> Answer
    ensures { (result ≡ step_check cell_width dt (axes gravity) boundary_handling simulation_dofs regions ids.now ranges.now particles (store pf.now pw.now) colliders cf.now (store jf.now jw.now) (length nf.old) (length nw.old))
        × (store nf.new nw.new ≡ settle (refused result) (store nf.old nw.old) (stepped cell_width dt (axes gravity) boundary_handling simulation_dofs regions ids.now ranges.now particles (store pf.now pw.now) colliders cf.now (store jf.now jw.now) (store nf.old nw.old)))
        × (refused result ≡ false → EmptyElsewhere cell_width ids.now particles (store pf.now pw.now) (store nf.new nw.new)) }
{
    let given = Scattering {
        cell_width,
        dt,
        gravity,
        regions,
        ids,
        ranges,
        particles,
        pf,
        pw,
    };
    let updating = Updating {
        boundary_handling,
        simulation_dofs,
        colliders,
        cf,
        jf,
        jw,
    };
    check_step(given, updating, nf.len(), nw.len())?;
    grid::clear(regions, ids, nf, nw)?;
    scatter_all(cell_width, dt, gravity, ids, ranges, pf, pw, nf, nw);
    grid_update(
        cell_width,
        dt,
        boundary_handling,
        simulation_dofs,
        regions,
        ids,
        colliders,
        cf,
        jf,
        jw,
        nf,
        nw,
    )
}

// What the three together are refused for: then none of them is made.
fn check_step(given: Scattering, updating: Updating, nf: usize, nw: usize) -> Answer
    ensures { let g = given.entry in let u = updating.entry in result ≡ step_check g.cell_width g.dt (axes g.gravity) u.boundary_handling u.simulation_dofs g.regions g.ids.now g.ranges.now g.particles (store g.pf.now g.pw.now) u.colliders u.cf.now (store u.jf.now u.jw.now) nf nw }
{
    let Scattering {
        regions,
        ids,
        ranges,
        particles,
        pf,
        pw,
        ..
    } = given;
    let Updating {
        boundary_handling,
        simulation_dofs,
        colliders,
        cf,
        jf,
        jw,
    } = updating;
    // By `&`, since six tests make one value, of which the proof has one fact.
    check_call(
        (ids.len() == regions)
            & (fits(ranges.len(), regions, RANGE_WORDS)
                & (holds_particles(particles, pf.len(), pw.len())
                    & (fits(cf.len(), colliders, COLLIDER_FLOATS)
                        & (holds_projections(regions, colliders, jf.len(), jw.len())
                            & holds_nodes(regions, nf, nw))))),
        check_limits(regions, particles, colliders),
        is_set(given),
        check_own(boundary_handling, simulation_dofs),
    )?;
    check_records(given, updating)
}

// Numbers 4 to 10 of the records: of one number particles come first, then colliders, then projections.
#[tactic(auto, unfolding(crate::specs::Step::records_check))]
fn check_records(given: Scattering, updating: Updating) -> Answer
    requires { (length given.ids.now * words_per_range ≤ length given.ranges.now) × (given.particles * floats_per_particle ≤ length given.pf.now) × (given.particles * words_per_particle ≤ length given.pw.now) }
    ensures { let g = given.entry in let u = updating.entry in result ≡ records_check g.cell_width g.ids.now g.ranges.now g.particles (store g.pf.now g.pw.now) u.cf.now (store u.jf.now u.jw.now) }
{
    let Scattering {
        cell_width,
        ids,
        ranges,
        particles,
        pf,
        pw,
        ..
    } = given;
    let Updating { cf, jf, jw, .. } = updating;
    if is_accepted(cell_width, ids, ranges, pf, pw, particles) {
        return check_given(cf, jf, jw);
    }
    first_particle(Rule::Code, cell_width, ids, 0, pf, pw, 0, particles)?;
    check_flags(jw)?;
    first_particle(Rule::NotFinite, cell_width, ids, 0, pf, pw, 0, particles)?;
    check_numbers(cf, COLLIDER_FLOATS)?;
    check_numbers(jf, PROJECTION_FLOATS)?;
    check_places(cell_width, ids, ranges, pf, pw, particles)
}

// Numbers 4 and 5 of colliders and projections, where no particle breaks a rule.
fn check_given(cf: &[f32], jf: &[f32], jw: &[u32]) -> Answer
    ensures { result ≡ first (flags jw.now ∷ numbers collider_floats cf.now ∷ numbers projection_floats jf.now ∷ []) }
{
    check_flags(jw)?;
    check_numbers(cf, COLLIDER_FLOATS)?;
    check_numbers(jf, PROJECTION_FLOATS)
}

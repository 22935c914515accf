// Fluids' volumes, recomputed from the mass of all particles.
ghost use Rattle.std.specs.Prelude.{◌≡◌, ◌*◌, ◌<◌, length};
ghost use Rattle.laws.specs.Store.{store, Holds};
ghost use Rattle.laws.specs.Hits.{run};
ghost use Rattle.laws.specs.Refusals.{settle};
ghost use Rattle.grid.specs.Answers.{refused};
ghost use Rattle.grid.specs.Nodes.{node_form, region_cells};
ghost use Rattle.grid.specs.Table.{before};
ghost use Rattle.particles.specs.Blocks.{corner_of};
ghost use Rattle.particles.specs.Particles.{particles};
ghost use Rattle.particles.specs.Table.{OnGrid, Ready};
ghost use Rattle.gather.specs.Gather.{Serves, Ranged, changes_from};
ghost use Rattle.fluids.specs.Fluids.{gathered_in, with_volume, recomputed, recomputed_in, massless, volumes, emptied, particles_after, nodes_after, fluids_check};

use cells::inner::weight;
use gather::inner::over_stencil;
use grid::Answer;
use grid::grid_node::{CELLS_OF_REGION, GridNode};
use grid::inner::{count_of, is_width, read_node, start_of, write_node};
use numeric::dim2::Matrix;
use particles::inner::blocks::block_of;
use particles::inner::checks::check_stage;
use particles::inner::spot::spot_of;
use particles::inner::{read_particle, write_particle};
use particles::particle::Particle;
use scatter::inner::scatter_mass;

// What mass is gathered from: the nodes of the listed regions.
#[derive(Clone, Copy)]
struct Masses<'a> {
    cell_width: f32,
    ids: &'a [u64],
    nf: &'a [f32],
    nw: &'a [u32],
}

// Every fluid's volume from the mass around it; or the call is refused, and nothing changes.
pub fn recompute_fluids_volumes(
    cell_width: f32,
    regions: usize,
    ids: &[u64],
    ranges: &[u64],
    particles: usize,
    pf: &mut [f32],
    pw: &mut [u32],
    nf: &mut [f32],
    nw: &mut [u32],
) -> Answer
    ensures { (result ≡ fluids_check cell_width regions ids.now ranges.now particles (store pf.old pw.old) (length nf.old) (length nw.old))
        × (store pf.new pw.new ≡ settle (refused result) (store pf.old pw.old) (particles_after cell_width ids.now ranges.now particles (store pf.old pw.old) (store nf.old nw.old)))
        × (store nf.new nw.new ≡ settle (refused result) (store nf.old nw.old) (nodes_after cell_width ids.now ranges.now particles (store pf.old pw.old) (store nf.old nw.old))) }
{
    check_fluids(
        cell_width,
        regions,
        ids,
        ranges,
        particles,
        pf,
        pw,
        nf.len(),
        nw.len(),
    )?;
    recompute_volumes(cell_width, ids, ranges, pf, pw, nf, nw);
    Ok(())
}

fn check_fluids(
    cell_width: f32,
    regions: usize,
    ids: &[u64],
    ranges: &[u64],
    particles: usize,
    pf: &[f32],
    pw: &[u32],
    nf: usize,
    nw: usize,
) -> Answer
    ensures { result ≡ fluids_check cell_width regions ids.now ranges.now particles (store pf.now pw.now) nf nw }
{
    check_stage(
        is_width(cell_width),
        Ok(()),
        cell_width,
        regions,
        ids,
        ranges,
        particles,
        pf,
        pw,
        nf,
        nw,
    )
}

// Mass is scattered onto the nodes, volumes are gathered from it, and it is taken off them again.
fn recompute_volumes(
    cell_width: f32,
    ids: &[u64],
    ranges: &[u64],
    pf: &mut [f32],
    pw: &mut [u32],
    nf: &mut [f32],
    nw: &mut [u32],
)
    requires { Ready cell_width ids.now ranges.now (store pf.old pw.old) (store nf.old nw.old) }
    ensures { (store pf.new pw.new ≡ particles_after cell_width ids.now ranges.now (before ranges.now (length ids.now)) (store pf.old pw.old) (store nf.old nw.old))
        × (store nf.new nw.new ≡ nodes_after cell_width ids.now ranges.now (before ranges.now (length ids.now)) (store pf.old pw.old) (store nf.old nw.old)) }
{
    scatter_mass(cell_width, ids, ranges, pf, pw, nf, nw);
    let masses = Masses {
        cell_width,
        ids,
        nf,
        nw,
    };
    gather_volumes(masses, ranges, pf, pw);
    reset_masses(ids.len(), nf, nw);
}

// Region by region, each by the places of its block.
fn gather_volumes(masses: Masses, ranges: &[u64], pf: &mut [f32], pw: &mut [u32])
    requires { Ready masses.cell_width masses.ids.now ranges.now (store pf.old pw.old) (store masses.nf.now masses.nw.now) }
    ensures { let m = masses.entry in store pf.new pw.new ≡ volumes m.cell_width m.ids.now (store m.nf.now m.nw.now) (before ranges.now (length m.ids.now)) (store pf.old pw.old) }
{
    for (r, id) in masses.ids.iter().enumerate() {
        gather_range(
            masses,
            *id,
            start_of(ranges, r),
            count_of(ranges, r),
            pf,
            pw,
        );
    }
}

// `count` particles of a region, from `start` on.
fn gather_range(
    masses: Masses,
    region_id: u64,
    start: usize,
    count: usize,
    pf: &mut [f32],
    pw: &mut [u32],
)
    requires { Ranged masses.cell_width masses.ids.now region_id start count (store pf.old pw.old) (store masses.nf.now masses.nw.now) }
    ensures { let m = masses.entry in store pf.new pw.new ≡ run particles (changes_from (recomputed m.cell_width m.ids.now (store m.nf.now m.nw.now)) start count) (store pf.old pw.old) }
{
    let block = block_of(masses.ids, region_id);
    for k in 0..count {
        let p = start + k;
        let q = read_particle(pf, pw, p);
        write_particle(pf, pw, p, recompute(masses, &block, q));
    }
}

// Only the fluids are affected.
fn recompute(masses: Masses, block: &[usize; 36], q: Particle) -> Particle
    requires { OnGrid masses.cell_width q × Serves block.now (corner_of masses.cell_width q) (store masses.nf.now masses.nw.now) }
    ensures { let m = masses.entry in result ≡ recomputed_in m.cell_width block.now (store m.nf.now m.nw.now) q }
{
    if q.fluid == 0 {
        return q;
    }
    let new_mass = gather_mass(masses, block, q);
    with_volume(masses.cell_width, new_mass, q)
}

// The mass on the nine nodes of a particle's stencil.
fn gather_mass(masses: Masses, block: &[usize; 36], q: Particle) -> f32
    requires { OnGrid masses.cell_width q × Serves block.now (corner_of masses.cell_width q) (store masses.nf.now masses.nw.now) }
    ensures { let m = masses.entry in result ≡ gathered_in m.cell_width block.now (store m.nf.now m.nw.now) q }
{
    let at = spot_of(masses.cell_width, &q);
    over_stencil(
        block,
        at.corner,
        masses.nf,
        masses.nw,
        0.0,
        |mass, shift, n| mass + weight(at.weights, shift) * n.mass,
    )
}

// The particle with its volume by a density, in F00.
fn with_volume(cell_width: f32, new_mass: f32, q: Particle) -> Particle
    ensures { result ≡ with_volume cell_width new_mass q }
{
    let new_density = new_mass / (cell_width * cell_width);
    let new_volume = q.mass / new_density;
    Particle {
        deformation_gradient: Matrix {
            m00: new_volume / q.volume0,
            ..q.deformation_gradient
        },
        ..q
    }
}

// Every listed node's mass becomes +0, so that a scatter may follow.
fn reset_masses(regions: usize, nf: &mut [f32], nw: &mut [u32])
    requires { Holds node_form (store nf.old nw.old) (regions * region_cells) }
    ensures { store nf.new nw.new ≡ emptied regions (store nf.old nw.old) }
{
    for k in 0..regions * CELLS_OF_REGION {
        let n = read_node(nf, nw, k);
        write_node(nf, nw, k, without_mass(n));
    }
}

fn without_mass(n: GridNode) -> GridNode
    ensures { result ≡ massless n }
{
    GridNode { mass: 0.0, ..n }
}

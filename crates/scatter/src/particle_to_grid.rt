// Scatter, of all regions colour by colour, and of one region.
ghost use Rattle.std.specs.Prelude.{◌≡◌, List, [], ◌∷◌, Float, ℕ, ◌+◌, ◌*◌, ◌≤◌, ◌<◌, length};
ghost use Rattle.numeric.specs.Axes.{axes, rows};
ghost use Rattle.numeric.specs.Bits.{◌⊗◌};
ghost use Rattle.numeric.specs.Kernel.{inv_d};
ghost use Rattle.laws.specs.Store.{store, Holds};
ghost use Rattle.laws.specs.Hits.{run};
ghost use Rattle.laws.specs.Refusals.{settle};
ghost use Rattle.cells.specs.Stencil.{dir_to_associated_grid_node};
ghost use Rattle.grid.specs.Answers.{refused, done};
ghost use Rattle.grid.specs.Nodes.{node_form, nodes};
ghost use Rattle.grid.specs.declared.grid_node.GridNode.{GridNode};
ghost use Rattle.particles.specs.declared.particle.Particle.{Particle};
ghost use Rattle.particles.specs.Particles.{floats_per_particle, words_per_particle, particle_at, position_of};
ghost use Rattle.particles.specs.Blocks.{found_at, BlockIn, corner_of};
ghost use Rattle.particles.specs.Table.{OnGrid, Ready};
ghost use Rattle.scatter.specs.Hit.{stress_of, affine_of, psi_mass_of, body_of, brought, brought_by, hit_node, changed, weighed_node, weighed};
ghost use Rattle.scatter.specs.Scatter.{on_node, region_hits, column_hits, block_hits, near_hits, coloured_hits, colour_hits, scatter_hits, scattered, region_scattered, scatter_check, place_check};

use crate::inner::{check_scatter, scatter_all, scatter_at};
use cells::inner::{STENCIL_SIDE, dpt, step, weight};
use grid::grid_node::GridNode;
use grid::inner::{count_of, read_node, refuse, start_of, write_node};
use grid::{Answer, Rule};
use numeric::dim2::{Matrix, Vector};
use numeric::inv_exact;
use packing::dim2::Cell;
use packing::{Plane, Space};
use particles::inner::blocks::{BLOCK_SIDE, block_of, found_at};
use particles::inner::read_particle;
use particles::inner::spot::{Spot, spot_of};
use particles::particle::Particle;

// The regions' colours, two along each axis.
const COLORS: u64 = 4;

// What particles are taken to the nodes for.
pub(crate) trait Pass: Copy {
    // What of a particle is brought to each of its nodes.
    type Load: Copy;

    // What a particle makes of a node at a shift.
    ghost changed_for: { Self → Float → Particle → List ℕ → GridNode → GridNode };

    // And what its load does, by the particle's way to its first node.
    ghost changed_by: { Self → Float → List Float → Self.Load → List ℕ → GridNode → GridNode };

    fn load(self, cell_width: f32, q: Particle) -> Self::Load
        ensures { changed_by self cell_width (dir_to_associated_grid_node cell_width (position_of q)) result ≡ changed_for self cell_width q };

    fn unload(self, load: Self::Load, at: &Spot, shift: Cell, n: GridNode) -> GridNode
        requires { (shift.x < 3) × (shift.y < 3) }
        ensures { result ≡ changed_by self at.now.cell_width (axes at.now.dir) load (shift.x ∷ shift.y ∷ []) n };
}

// All of a scatter.
#[derive(Clone, Copy)]
pub(crate) struct ForAll {
    pub(crate) dt: f32,
    pub(crate) gravity: Vector,
}

// Mass alone.
#[derive(Clone, Copy)]
pub(crate) struct ForMass;

// What a scatter reads.
#[derive(Clone, Copy)]
pub(crate) struct Scatter<'a, P> {
    pub(crate) cell_width: f32,
    pub(crate) pass: P,
    pub(crate) ids: &'a [u64],
    pub(crate) ranges: &'a [u64],
    pub(crate) pf: &'a [f32],
    pub(crate) pw: &'a [u32],
}

// What a particle brings to each node of its stencil in a scatter.
#[derive(Clone, Copy)]
pub(crate) struct Contribution {
    mass: f32,
    momentum: Vector,
    affine: Matrix,
    psi_mass: f32,
    psi_momentum: f32,
}

// Every region's particles, colours 0 to 3 and regions in the list's order; or the call is refused, and nothing changes.
pub fn particle_to_grid_scatter(
    cell_width: f32,
    dt: f32,
    gravity: Vector,
    regions: usize,
    ids: &[u64],
    ranges: &[u64],
    particles: usize,
    pf: &[f32],
    pw: &[u32],
    nf: &mut [f32],
    nw: &mut [u32],
) -> Answer
    ensures { (result ≡ scatter_check done cell_width dt (axes gravity) regions ids.now ranges.now particles (store pf.now pw.now) (length nf.old) (length nw.old))
        × (store nf.new nw.new ≡ settle (refused result) (store nf.old nw.old) (scattered cell_width dt (axes gravity) ids.now ranges.now (store pf.now pw.now) (store nf.old nw.old))) }
{
    check_scatter(
        Ok(()),
        cell_width,
        dt,
        gravity,
        regions,
        ids,
        ranges,
        particles,
        pf,
        pw,
        nf.len(),
        nw.len(),
    )?;
    scatter_all(cell_width, dt, gravity, ids, ranges, pf, pw, nf, nw);
    Ok(())
}

// The particles of the region at a place of the list, on every listed node that they hit; or the call is refused, and nothing changes.
pub fn particle_to_grid_scatter_region(
    place: usize,
    cell_width: f32,
    dt: f32,
    gravity: Vector,
    regions: usize,
    ids: &[u64],
    ranges: &[u64],
    particles: usize,
    pf: &[f32],
    pw: &[u32],
    nf: &mut [f32],
    nw: &mut [u32],
) -> Answer
    ensures { (result ≡ scatter_check (place_check place regions) cell_width dt (axes gravity) regions ids.now ranges.now particles (store pf.now pw.now) (length nf.old) (length nw.old))
        × (store nf.new nw.new ≡ settle (refused result) (store nf.old nw.old) (region_scattered cell_width dt (axes gravity) ids.now ranges.now (store pf.now pw.now) place (store nf.old nw.old))) }
{
    check_scatter(
        check_place(place, regions),
        cell_width,
        dt,
        gravity,
        regions,
        ids,
        ranges,
        particles,
        pf,
        pw,
        nf.len(),
        nw.len(),
    )?;
    scatter_at(cell_width, dt, gravity, ids, ranges, pf, pw, place, nf, nw);
    Ok(())
}

fn check_place(place: usize, regions: usize) -> Answer
    ensures { result ≡ place_check place regions }
{
    refuse(!(place < regions), Rule::Code, 0)
}

pub(crate) fn scatter_colors<P: Pass>(s: &Scatter<P>, nf: &mut [f32], nw: &mut [u32])
    requires { Ready s.now.cell_width s.now.ids.now s.now.ranges.now (store s.now.pf.now s.now.pw.now) (store nf.old nw.old) }
    ensures { store nf.new nw.new ≡ run nodes (scatter_hits s.now.cell_width (P.changed_for s.now.pass s.now.cell_width) s.now.ids.now s.now.ranges.now (store s.now.pf.now s.now.pw.now)) (store nf.old nw.old) }
{
    for color in 0..COLORS {
        scatter_color(s, color, nf, nw);
    }
}

// The regions of one colour.
fn scatter_color<P: Pass>(s: &Scatter<P>, color: u64, nf: &mut [f32], nw: &mut [u32])
    requires { Ready s.now.cell_width s.now.ids.now s.now.ranges.now (store s.now.pf.now s.now.pw.now) (store nf.old nw.old) }
    ensures { store nf.new nw.new ≡ run nodes (colour_hits s.now.cell_width (P.changed_for s.now.pass s.now.cell_width) s.now.ids.now s.now.ranges.now (store s.now.pf.now s.now.pw.now) color) (store nf.old nw.old) }
{
    for place in 0..s.ids.len() {
        scatter_colored(s, color, place, nf, nw);
    }
}

// The region at a place, where it has the colour.
fn scatter_colored<P: Pass>(
    s: &Scatter<P>,
    color: u64,
    place: usize,
    nf: &mut [f32],
    nw: &mut [u32],
)
    requires { (place < length s.now.ids.now) × Ready s.now.cell_width s.now.ids.now s.now.ranges.now (store s.now.pf.now s.now.pw.now) (store nf.old nw.old) }
    ensures { store nf.new nw.new ≡ run nodes (coloured_hits s.now.cell_width (P.changed_for s.now.pass s.now.cell_width) s.now.ids.now s.now.ranges.now (store s.now.pf.now s.now.pw.now) color place) (store nf.old nw.old) }
{
    if Plane::is_in_region_with_color(s.ids[place], color) {
        scatter_region(s, place, nf, nw);
    }
}

// The region at a place: the places that its stencils reach are looked for once.
pub(crate) fn scatter_region<P: Pass>(s: &Scatter<P>, place: usize, nf: &mut [f32], nw: &mut [u32])
    requires { (place < length s.now.ids.now) × Ready s.now.cell_width s.now.ids.now s.now.ranges.now (store s.now.pf.now s.now.pw.now) (store nf.old nw.old) }
    ensures { store nf.new nw.new ≡ run nodes (region_hits s.now.cell_width (P.changed_for s.now.pass s.now.cell_width) s.now.ids.now s.now.ranges.now (store s.now.pf.now s.now.pw.now) place) (store nf.old nw.old) }
{
    let start = start_of(s.ranges, place);
    let count = count_of(s.ranges, place);
    let block = block_of(s.ids, s.ids[place]);
    scatter_particles(s, &block, start, count, nf, nw);
}

// `count` particles from `start` on, by the places of their region's block.
fn scatter_particles<P: Pass>(
    s: &Scatter<P>,
    block: &[usize; 36],
    start: usize,
    count: usize,
    nf: &mut [f32],
    nw: &mut [u32],
)
    requires { ((start + count) * floats_per_particle ≤ length s.now.pf.now) × ((start + count) * words_per_particle ≤ length s.now.pw.now) × BlockIn block.now (length nw.old) × Holds node_form (store nf.old nw.old) (length nw.old)
        × ((k : ℕ) → k < count → OnGrid s.now.cell_width (particle_at (store s.now.pf.now s.now.pw.now) (start + k))) }
    ensures { store nf.new nw.new ≡ run nodes (near_hits block.now s.now.cell_width (P.changed_for s.now.pass s.now.cell_width) (store s.now.pf.now s.now.pw.now) start count) (store nf.old nw.old) }
{
    for k in 0..count {
        let q = read_particle(s.pf, s.pw, start + k);
        scatter_particle(s.cell_width, s.pass, block, q, nf, nw);
    }
}

// One particle, on the nine nodes of its stencil, column by column.
fn scatter_particle<P: Pass>(
    cell_width: f32,
    pass: P,
    block: &[usize; 36],
    q: Particle,
    nf: &mut [f32],
    nw: &mut [u32],
)
    requires { OnGrid cell_width q × BlockIn block.now (length nw.old) × Holds node_form (store nf.old nw.old) (length nw.old) }
    ensures { store nf.new nw.new ≡ run nodes (block_hits block.now (P.changed_for pass cell_width q) (corner_of cell_width q)) (store nf.old nw.old) }
{
    let at = spot_of(cell_width, &q);
    let load = pass.load(cell_width, q);
    for i in 0..STENCIL_SIDE {
        hit_column(pass, load, &at, block, step(i), nf, nw);
    }
}

// The column of a stencil that lies x beyond its first.
fn hit_column<P: Pass>(
    pass: P,
    load: P::Load,
    at: &Spot,
    block: &[usize; 36],
    x: u32,
    nf: &mut [f32],
    nw: &mut [u32],
)
    requires { (x < 3) × BlockIn block.now (length nw.old) × Holds node_form (store nf.old nw.old) (length nw.old) }
    ensures { store nf.new nw.new ≡ run nodes (column_hits block.now (P.changed_by pass at.now.cell_width (axes at.now.dir) load) at.now.corner x) (store nf.old nw.old) }
{
    for j in 0..STENCIL_SIDE {
        let y = step(j);
        let number = block[at.corner + (x as usize + BLOCK_SIDE * y as usize)];
        hit(pass, load, at, number, Cell { x, y }, nf, nw);
    }
}

// The node at a place, as a block numbers it. Its region is listed, as the check has shown; of another there is none, and nothing is hit.
fn hit<P: Pass>(
    pass: P,
    load: P::Load,
    at: &Spot,
    number: usize,
    shift: Cell,
    nf: &mut [f32],
    nw: &mut [u32],
)
    requires { (shift.x < 3) × (shift.y < 3) × (number ≤ length nw.old) × Holds node_form (store nf.old nw.old) (length nw.old) }
    ensures { store nf.new nw.new ≡ run nodes (on_node (found_at number) (P.changed_by pass at.now.cell_width (axes at.now.dir) load (shift.x ∷ shift.y ∷ []))) (store nf.old nw.old) }
{
    let Some(k) = found_at(number) else {
        return;
    };
    let n = read_node(nf, nw, k);
    write_node(nf, nw, k, pass.unload(load, at, shift, n));
}

impl Pass for ForAll {
    type Load = Contribution;

    ghost changed_for = { λ pass h. changed h pass.dt (axes pass.gravity) };

    ghost changed_by = { λ pass h dir c. hit_node h pass.dt (axes pass.gravity) dir (brought_by c) };

    fn load(self, cell_width: f32, q: Particle) -> Contribution {
        contribution_of(cell_width, self.dt, q)
    }

    fn unload(self, c: Contribution, at: &Spot, shift: Cell, n: GridNode) -> GridNode {
        let ForAll { dt, gravity } = self;
        let dpt = dpt(at.cell_width, at.dir, shift);
        let weight = weight(at.weights, shift);
        let mass = n.mass + weight * c.mass;
        let momentum = Vector {
            x: n.momentum.x
                + weight * ((c.affine.m00 * dpt.x + c.affine.m01 * dpt.y) + c.momentum.x),
            y: n.momentum.y
                + weight * ((c.affine.m10 * dpt.x + c.affine.m11 * dpt.y) + c.momentum.y),
        };
        let inv = inv_exact(mass);
        GridNode {
            mass,
            momentum,
            velocity: Vector {
                x: (momentum.x + (mass * gravity.x) * dt) * inv,
                y: (momentum.y + (mass * gravity.y) * dt) * inv,
            },
            psi_momentum: n.psi_momentum + weight * c.psi_momentum,
            psi_mass: n.psi_mass + weight * c.psi_mass,
            ..n
        }
    }
}

impl Pass for ForMass {
    type Load = f32;

    ghost changed_for = { λ pass h. weighed h };

    ghost changed_by = { λ pass h dir m. weighed_node h dir m };

    fn load(self, _cell_width: f32, q: Particle) -> f32 {
        q.mass
    }

    fn unload(self, mass: f32, at: &Spot, shift: Cell, n: GridNode) -> GridNode {
        GridNode {
            mass: n.mass + weight(at.weights, shift) * mass,
            ..n
        }
    }
}

fn contribution_of(cell_width: f32, dt: f32, q: Particle) -> Contribution
    ensures { brought_by result ≡ brought cell_width dt (body_of q) }
{
    let psi_mass = psi_mass_of(q);
    Contribution {
        mass: q.mass,
        momentum: Vector {
            x: q.mass * q.velocity.x,
            y: q.mass * q.velocity.y,
        },
        affine: affine_of(cell_width, dt, q),
        psi_mass,
        psi_momentum: psi_mass * q.psi_pos,
    }
}

fn affine_of(cell_width: f32, dt: f32, q: Particle) -> Matrix
    ensures { rows result ≡ affine_of q.mass ((q.volume0 ⊗ inv_d cell_width) ⊗ dt) (rows q.velocity_gradient) (stress_of (body_of q).failed (rows q.stress)) }
{
    let scale = q.volume0 * numeric::kernel::inv_d(cell_width) * dt;
    let stress = stress_of(q);
    Matrix {
        m00: q.mass * q.velocity_gradient.m00 - scale * stress.m00,
        m01: q.mass * q.velocity_gradient.m01 - scale * stress.m01,
        m10: q.mass * q.velocity_gradient.m10 - scale * stress.m10,
        m11: q.mass * q.velocity_gradient.m11 - scale * stress.m11,
    }
}

// A failed particle has no stress.
fn stress_of(q: Particle) -> Matrix
    ensures { rows result ≡ stress_of (body_of q).failed (rows q.stress) }
{
    if q.failed == 0 {
        return q.stress;
    }
    Matrix {
        m00: 0.0,
        m01: 0.0,
        m10: 0.0,
        m11: 0.0,
    }
}

// Only a particle that can crack brings psi.
fn psi_mass_of(q: Particle) -> f32
    ensures { result ≡ psi_mass_of (body_of q) }
{
    if 0.0 < q.phase && q.crack_propagation_factor != 0.0 && q.failed == 0 {
        return q.mass;
    }
    0.0
}

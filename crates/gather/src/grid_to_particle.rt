// Gather. The first half takes velocity, its gradient and psi from the nodes and moves the particles; the second settles what the host's models say of them: `gf` and `gw` give
// for each particle its density, its energy and whether it failed.
ghost use Rattle.std.specs.Prelude.{◌≡◌, ◌+◌, ◌*◌, ◌<◌, ◌≤◌, [], ◌∷◌, length, if◌then◌else◌};
ghost use Rattle.numeric.specs.Axes.{zeros, zero_rows, identity, axes, rows};
ghost use Rattle.numeric.specs.Bits.{none};
ghost use Rattle.laws.specs.Store.{store, Holds};
ghost use Rattle.laws.specs.Hits.{run};
ghost use Rattle.laws.specs.Refusals.{settle};
ghost use Rattle.grid.specs.Answers.{refused};
ghost use Rattle.grid.specs.Table.{before};
ghost use Rattle.particles.specs.Blocks.{corner_of};
ghost use Rattle.particles.specs.Particles.{particle_form, particles};
ghost use Rattle.particles.specs.Table.{OnGrid, Ready};
ghost use Rattle.gather.specs.Transfer.{nothing, taken_from, eroded, solid_deformed, fluid_deformed, deformed, fails, on, node_of, body_of, state_of, taken_by, given_by, advanced, finished};
ghost use Rattle.gather.specs.Gather.{taken_in, Serves, Ranged, first_change, changes_from, given_floats, given_words, given_at, first_half, second_half, first_check, second_check};

use crate::inner::{check_first_half, check_second_half, over_stencil};
use cells::inner::{dpt, weight};
use grid::Answer;
use grid::grid_node::GridNode;
use grid::inner::{count_of, start_of};
use numeric::dim2::{Matrix, Point, Vector};
use numeric::inv_exact;
use packing::dim2::Cell;
use particles::inner::blocks::block_of;
use particles::inner::spot::{Spot, spot_of};
use particles::inner::{read_particle, write_particle};
use particles::particle::Particle;

// The floats and the words that are given for a particle, in lent memory.
pub const GIVEN_FLOATS: usize = 2;

pub const GIVEN_WORDS: usize = 1;

const STILL: Vector = Vector { x: 0.0, y: 0.0 };

const ZERO: Matrix = Matrix {
    m00: 0.0,
    m01: 0.0,
    m10: 0.0,
    m11: 0.0,
};

const IDENTITY: Matrix = Matrix {
    m00: 1.0,
    m11: 1.0,
    ..ZERO
};

// What a particle takes from the nodes of its stencil.
#[derive(Clone, Copy)]
struct Transfer {
    velocity: Vector,
    velocity_gradient: Matrix,
    psi_pos_momentum: f32,
    velocity_gradient_det: f32,
}

// What the host's models tell of a particle: three answers, of which none says whether another is there.
#[derive(Clone, Copy)]
struct Told {
    density: f32,
    energy: f32,
    failed: bool,
}

// What the first half works with: its settings, and the listed regions with their nodes. Modified eigenerosion stays the host's word, of which the definitions speak.
#[derive(Clone, Copy)]
struct FirstHalf<'a> {
    cell_width: f32,
    dt: f32,
    modified_eigenerosion: u32,
    ids: &'a [u64],
    nf: &'a [f32],
    nw: &'a [u32],
}

// Every particle takes velocity, gradient and psi from the nodes of its stencil and moves; or the call is refused, and nothing changes.
pub fn grid_to_particle_first_half(
    cell_width: f32,
    dt: f32,
    modified_eigenerosion: u32,
    regions: usize,
    ids: &[u64],
    ranges: &[u64],
    particles: usize,
    pf: &mut [f32],
    pw: &mut [u32],
    nf: &[f32],
    nw: &[u32],
) -> Answer
    ensures { (result ≡ first_check cell_width dt modified_eigenerosion regions ids.now ranges.now particles (store pf.old pw.old) (length nf.now) (length nw.now))
        × (store pf.new pw.new ≡ settle (refused result) (store pf.old pw.old) (first_half cell_width dt modified_eigenerosion ids.now (store nf.now nw.now) particles (store pf.old pw.old))) }
{
    check_first_half(
        cell_width,
        dt,
        modified_eigenerosion,
        regions,
        ids,
        ranges,
        particles,
        pf,
        pw,
        nf.len(),
        nw.len(),
    )?;
    let half = FirstHalf {
        cell_width,
        dt,
        modified_eigenerosion,
        ids,
        nf,
        nw,
    };
    gather_particles(half, ranges, pf, pw);
    Ok(())
}

// Region by region, each by the places of its block.
fn gather_particles(half: FirstHalf, ranges: &[u64], pf: &mut [f32], pw: &mut [u32])
    requires { Ready half.cell_width half.ids.now ranges.now (store pf.old pw.old) (store half.nf.now half.nw.now) }
    ensures { let h = half.entry in
        store pf.new pw.new ≡ first_half h.cell_width h.dt h.modified_eigenerosion h.ids.now (store h.nf.now h.nw.now) (before ranges.now (length h.ids.now)) (store pf.old pw.old) }
{
    for (r, id) in half.ids.iter().enumerate() {
        gather_range(half, *id, start_of(ranges, r), count_of(ranges, r), pf, pw);
    }
}

// `count` particles of a region, from `start` on.
fn gather_range(
    half: FirstHalf,
    region_id: u64,
    start: usize,
    count: usize,
    pf: &mut [f32],
    pw: &mut [u32],
)
    requires { Ranged half.cell_width half.ids.now region_id start count (store pf.old pw.old) (store half.nf.now half.nw.now) }
    ensures { let h = half.entry in
        store pf.new pw.new ≡ run particles (changes_from (first_change h.cell_width h.ids.now (store h.nf.now h.nw.now) h.dt h.modified_eigenerosion) start count) (store pf.old pw.old) }
{
    let block = block_of(half.ids, region_id);
    for p in start..start + count {
        let q = read_particle(pf, pw, p);
        let t = take(half, &block, q);
        write_particle(pf, pw, p, advance(half, t, q));
    }
}

// What a particle takes from the nine nodes of its stencil.
fn take(half: FirstHalf, block: &[usize; 36], q: Particle) -> Transfer
    requires { OnGrid half.cell_width q × Serves block.now (corner_of half.cell_width q) (store half.nf.now half.nw.now) }
    ensures { let h = half.entry in taken_by result ≡ taken_in h.cell_width block.now (store h.nf.now h.nw.now) q }
{
    let at = spot_of(half.cell_width, &q);
    over_stencil(
        block,
        at.corner,
        half.nf,
        half.nw,
        zero_transfer(),
        |t, shift, n| add(&at, shift, n, t),
    )
}

fn zero_transfer() -> Transfer
    ensures { taken_by result ≡ nothing (none ∷ none ∷ []) }
{
    Transfer {
        velocity: STILL,
        velocity_gradient: ZERO,
        psi_pos_momentum: 0.0,
        velocity_gradient_det: 0.0,
    }
}

// What a particle has taken, and what one more node adds.
fn add(at: &Spot, shift: Cell, n: GridNode, t: Transfer) -> Transfer
    requires { (shift.x < 3) × (shift.y < 3) }
    ensures { taken_by result ≡ taken_from at.now.cell_width (axes at.now.dir) (shift.x ∷ shift.y ∷ []) (node_of n) (taken_by t) }
{
    let dpt = dpt(at.cell_width, at.dir, shift);
    let weight = weight(at.weights, shift);
    let inv_d = numeric::kernel::inv_d(at.cell_width);
    let x = (weight * inv_d) * n.velocity.x;
    let y = (weight * inv_d) * n.velocity.y;
    let along = n.velocity.x * dpt.x + n.velocity.y * dpt.y;
    Transfer {
        velocity: Vector {
            x: t.velocity.x + weight * n.velocity.x,
            y: t.velocity.y + weight * n.velocity.y,
        },
        velocity_gradient: Matrix {
            m00: t.velocity_gradient.m00 + x * dpt.x,
            m01: t.velocity_gradient.m01 + x * dpt.y,
            m10: t.velocity_gradient.m10 + y * dpt.x,
            m11: t.velocity_gradient.m11 + y * dpt.y,
        },
        psi_pos_momentum: t.psi_pos_momentum + (weight * n.psi_momentum) * inv_exact(n.psi_mass),
        velocity_gradient_det: t.velocity_gradient_det + (weight * along) * inv_d,
    }
}

// What becomes of a particle in the first half.
fn advance(half: FirstHalf, t: Transfer, q: Particle) -> Particle
    ensures { let h = half.entry in result ≡ advanced (on h.modified_eigenerosion) h.cell_width h.dt (taken_by t) q }
{
    let velocity = velocity_of(t, q);
    Particle {
        position: Point {
            x: q.position.x + velocity.x * half.dt,
            y: q.position.y + velocity.y * half.dt,
        },
        velocity,
        velocity_gradient: t.velocity_gradient,
        phase: phase_of(half, t, q),
        deformation_gradient: deform(half.dt, t, q),
        ..q
    }
}

// A kinematic velocity takes the place of the nodes'.
fn velocity_of(t: Transfer, q: Particle) -> Vector
    ensures { axes result ≡ (if on q.kinematic then axes q.kinematic_vel else axes t.velocity) }
{
    if q.kinematic == 0 {
        t.velocity
    } else {
        q.kinematic_vel
    }
}

// Modified eigenerosion: the phase is lost where the crack's energy is above its threshold.
fn phase_of(half: FirstHalf, t: Transfer, q: Particle) -> f32
    ensures { let h = half.entry in result ≡ eroded (on h.modified_eigenerosion) h.cell_width t.psi_pos_momentum (body_of q) }
{
    let crack_energy = q.crack_propagation_factor * half.cell_width * t.psi_pos_momentum;
    if half.modified_eigenerosion != 0
        && q.crack_propagation_factor != 0.0
        && 0.0 < q.phase
        && q.crack_threshold < crack_energy
    {
        0.0
    } else {
        q.phase
    }
}

fn deform(dt: f32, t: Transfer, q: Particle) -> Matrix
    ensures { rows result ≡ deformed dt (taken_by t) (body_of q) }
{
    if q.fluid == 0 {
        deform_solid(dt, t.velocity_gradient, q.deformation_gradient)
    } else {
        deform_fluid(dt, t.velocity_gradient_det, q.deformation_gradient)
    }
}

// F + (G·dt)·F, all of it from the old F.
fn deform_solid(dt: f32, g: Matrix, f: Matrix) -> Matrix
    ensures { rows result ≡ solid_deformed dt (rows g) (rows f) }
{
    let a = Matrix {
        m00: g.m00 * dt,
        m01: g.m01 * dt,
        m10: g.m10 * dt,
        m11: g.m11 * dt,
    };
    Matrix {
        m00: f.m00 + (a.m00 * f.m00 + a.m01 * f.m10),
        m01: f.m01 + (a.m00 * f.m01 + a.m01 * f.m11),
        m10: f.m10 + (a.m10 * f.m00 + a.m11 * f.m10),
        m11: f.m11 + (a.m10 * f.m01 + a.m11 * f.m11),
    }
}

// A fluid has its volume's change in F00.
fn deform_fluid(dt: f32, det: f32, f: Matrix) -> Matrix
    ensures { rows result ≡ fluid_deformed dt det (rows f) }
{
    Matrix {
        m00: f.m00 + (det * dt) * f.m00,
        ..f
    }
}

// What the models say of every particle is settled; or the call is refused, and nothing changes.
pub fn grid_to_particle_second_half(
    particles: usize,
    pf: &mut [f32],
    pw: &mut [u32],
    gf: &[f32],
    gw: &[u32],
) -> Answer
    ensures { (result ≡ second_check particles (store pf.old pw.old) (store gf.now gw.now))
        × (store pf.new pw.new ≡ settle (refused result) (store pf.old pw.old) (second_half (store gf.now gw.now) particles (store pf.old pw.old))) }
{
    check_second_half(particles, pf, pw, gf, gw)?;
    finish_particles(particles, pf, pw, gf, gw);
    Ok(())
}

fn finish_particles(particles: usize, pf: &mut [f32], pw: &mut [u32], gf: &[f32], gw: &[u32])
    requires { Holds particle_form (store pf.old pw.old) particles × (length gf.now ≡ particles * given_floats) × (length gw.now ≡ particles * given_words) }
    ensures { store pf.new pw.new ≡ second_half (store gf.now gw.now) particles (store pf.old pw.old) }
{
    for p in 0..particles {
        let q = read_particle(pf, pw, p);
        let told = read_told(gf, gw, p);
        write_particle(pf, pw, p, finish(told, q));
    }
}

// What is given for the particle at place p.
fn read_told(gf: &[f32], gw: &[u32], p: usize) -> Told
    requires { (p * given_floats + given_floats ≤ length gf.now) × (p * given_words + given_words ≤ length gw.now) }
    ensures { given_by result ≡ given_at (store gf.now gw.now) p }
{
    Told {
        density: gf[p * GIVEN_FLOATS],
        energy: gf[p * GIVEN_FLOATS + 1],
        failed: gw[p * GIVEN_WORDS] != 0,
    }
}

// What becomes of a particle in the second half.
fn finish(told: Told, q: Particle) -> Particle
    ensures { result ≡ finished (given_by told) q }
{
    let fails = has_failed(told, q);
    let psi_pos = numeric::max(q.psi_pos, told.energy);
    Particle {
        velocity: stilled(q),
        velocity_gradient: replaced(q.is_static != 0 || fails, ZERO, q.velocity_gradient),
        phase: kept_phase(told, q),
        psi_pos,
        deformation_gradient: replaced(fails, IDENTITY, q.deformation_gradient),
        parameter1: psi_pos * q.mass,
        parameter2: q.mass,
        failed: failed_flag(fails, q),
        ..q
    }
}

// A particle without density, one that failed before, and a solid with a huge deformation, fail.
fn has_failed(told: Told, q: Particle) -> bool
    ensures { result ≡ fails (given_by told) (state_of q) }
{
    told.density == 0.0
        || q.failed != 0
        || (q.fluid == 0 && 10000.0 < numeric::abs(q.deformation_gradient.m00))
}

fn failed_flag(fails: bool, q: Particle) -> u32
    ensures { result ≡ (if fails then 1 else q.failed) }
{
    if fails { 1 } else { q.failed }
}

// A static particle does not move on.
fn stilled(q: Particle) -> Vector
    ensures { axes result ≡ (if on q.is_static then zeros (axes q.velocity) else axes q.velocity) }
{
    if q.is_static == 0 { q.velocity } else { STILL }
}

// The matrix that takes the place of another, where it is to.
fn replaced(is_replaced: bool, by: Matrix, m: Matrix) -> Matrix
    ensures { rows result ≡ (if is_replaced then rows by else rows m) }
{
    if is_replaced { by } else { m }
}

// A particle that its model says failed has no phase left.
fn kept_phase(told: Told, q: Particle) -> f32
    ensures { result ≡ (if told.failed then none else q.phase) }
{
    if told.failed { 0.0 } else { q.phase }
}

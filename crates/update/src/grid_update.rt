// Locked axes, then colliders in order, on every node of every listed region. The host gives the projection of each cell on each collider: `jf` and `jw`, by region, by the
// cell's number in it, by collider.
ghost use Rattle.std.specs.Prelude.{◌≡◌, cond, [], ◌∷◌, ◌+◌, ◌*◌, ◌%◌, ◌≤◌, ◌<◌, eqb, length};
ghost use Rattle.numeric.specs.Axes.{axes};
ghost use Rattle.numeric.specs.Bits.{none};
ghost use Rattle.numeric.specs.Kernel.{dot, minus_all};
ghost use Rattle.laws.specs.Store.{store};
ghost use Rattle.laws.specs.Hits.{run};
ghost use Rattle.laws.specs.Refusals.{settle};
ghost use Rattle.grid.specs.Answers.{refused};
ghost use Rattle.grid.specs.Nodes.{nodes, region_cells};
ghost use Rattle.update.specs.Boundary.{handling_of, is_inside, point_of, flagged, norm, normal_of, turned, slid, less, met, against, rubbed, handled, collided};
ghost use Rattle.update.specs.Update.{collider_floats, projection_floats, projection_words, projection_at, locked, locked_node, after_colliders, updated_cell, region_updates, updates, updated, update_check, Ready};

use crate::inner::check_update;
use grid::grid_node::{CELLS_OF_REGION, GridNode};
use grid::inner::{read_node, write_node};
use grid::{Answer, Refusal, Rule};
use numeric::dim2::{Point, Vector};
use packing::{Plane, Space};

// The floats of a collider, and the floats and words of a projection, in lent memory.
pub const COLLIDER_FLOATS: usize = 1;

pub const PROJECTION_FLOATS: usize = 2;

pub const PROJECTION_WORDS: usize = 1;

// What is done at a boundary; friction and friction z-up act alike.
#[derive(Clone, Copy, Debug, PartialEq, Eq)]
pub(crate) enum BoundaryHandling {
    None,
    Stick,
    Friction,
}

impl TryFrom<u32> for BoundaryHandling {
    type Error = Refusal;

    ghost try_from_gives = { λ code r. r ≡ handling_of code };

    // What a code stands for.
    fn try_from(code: u32) -> Result<Self, Refusal> {
        match code {
            0 => Ok(BoundaryHandling::None),
            1 => Ok(BoundaryHandling::Stick),
            2..=3 => Ok(BoundaryHandling::Friction),
            _ => Err(Refusal {
                rule: Rule::Code,
                index: 0,
            }),
        }
    }
}

// Where a cell projects to on a collider. Two cases with two f32 each, by which the update goes, and no flag beside a point: document 01 asks for this form.
#[derive(Clone, Copy)]
pub(crate) enum Projection {
    Inside(f32, f32),
    Outside(f32, f32),
}

// What every node of an update is given; slices as the host lends them.
#[derive(Clone, Copy)]
struct Update<'a> {
    handling: BoundaryHandling,
    cell_width: f32,
    dt: f32,
    simulation_dofs: u32,
    ids: &'a [u64],
    colliders: usize,
    cf: &'a [f32],
    jf: &'a [f32],
    jw: &'a [u32],
}

// What a node is given at a collider.
#[derive(Clone, Copy)]
struct Contact {
    handling: BoundaryHandling,
    cell_width: f32,
    dt: f32,
    friction: f32,
    cell_pos: Point,
    proj: Projection,
}

// Every node of every listed region; or the call is refused, and nothing changes. The boundary's handling is the host's code, which may stand for none.
#[tactic(auto, unfolding(crate::specs::Update::updated))]
pub fn grid_update(
    cell_width: f32,
    dt: f32,
    boundary_handling: u32,
    simulation_dofs: u32,
    regions: usize,
    ids: &[u64],
    colliders: usize,
    cf: &[f32],
    jf: &[f32],
    jw: &[u32],
    nf: &mut [f32],
    nw: &mut [u32],
) -> Answer
    ensures { (result ≡ update_check cell_width dt boundary_handling simulation_dofs regions ids.now colliders cf.now (store jf.now jw.now) (length nf.old) (length nw.old))
        × (store nf.new nw.new ≡ settle (refused result) (store nf.old nw.old) (updated cell_width dt boundary_handling simulation_dofs ids.now colliders cf.now (store jf.now jw.now) (store nf.old nw.old))) }
{
    check_update(
        cell_width,
        dt,
        boundary_handling,
        simulation_dofs,
        regions,
        ids,
        colliders,
        cf,
        jf,
        jw,
        nf.len(),
        nw.len(),
    )?;
    let handling = BoundaryHandling::try_from(boundary_handling)?;
    let update = Update {
        handling,
        cell_width,
        dt,
        simulation_dofs,
        ids,
        colliders,
        cf,
        jf,
        jw,
    };
    update_regions(&update, nf, nw);
    Ok(())
}

#[tactic(auto, using(laws::proofs::Hits::run_none, laws::proofs::Hits::run_more), unfolding(crate::specs::Update::updates))]
fn update_regions(u: &Update, nf: &mut [f32], nw: &mut [u32])
    requires { Ready u.now.ids.now u.now.colliders u.now.cf.now (store u.now.jf.now u.now.jw.now) (store nf.old nw.old) }
    ensures { store nf.new nw.new ≡ run nodes (updates u.now.handling u.now.cell_width u.now.dt u.now.cf.now (store u.now.jf.now u.now.jw.now) u.now.simulation_dofs u.now.ids.now u.now.colliders) (store nf.old nw.old) }
{
    for r in 0..u.ids.len() {
        update_region(u, r, nf, nw);
    }
}

// The 16 nodes of the region at place `r`.
#[tactic(auto, using(laws::proofs::Hits::run_none, laws::proofs::Hits::run_more), unfolding(crate::specs::Update::region_updates))]
fn update_region(u: &Update, r: usize, nf: &mut [f32], nw: &mut [u32])
    requires { (r < length u.now.ids.now) × Ready u.now.ids.now u.now.colliders u.now.cf.now (store u.now.jf.now u.now.jw.now) (store nf.old nw.old) }
    ensures { store nf.new nw.new ≡ run nodes (region_updates u.now.handling u.now.cell_width u.now.dt u.now.cf.now (store u.now.jf.now u.now.jw.now) u.now.simulation_dofs u.now.ids.now u.now.colliders r) (store nf.old nw.old) }
{
    for c in 0..CELLS_OF_REGION {
        update_cell(u, r, c, nf, nw);
    }
}

// The node of the cell `c` of that region.
fn update_cell(u: &Update, r: usize, c: usize, nf: &mut [f32], nw: &mut [u32])
    requires { (r < length u.now.ids.now) × (c < region_cells) × Ready u.now.ids.now u.now.colliders u.now.cf.now (store u.now.jf.now u.now.jw.now) (store nf.old nw.old) }
    ensures { store nf.new nw.new ≡ run nodes (updated_cell u.now.handling u.now.cell_width u.now.dt u.now.cf.now (store u.now.jf.now u.now.jw.now) u.now.simulation_dofs u.now.ids.now u.now.colliders r c) (store nf.old nw.old) }
{
    let k = r * CELLS_OF_REGION + c;
    let cell_id = Plane::cell_of_region(u.ids[r], c as u64);
    let cell_pos = cells::dim2::cell_center(u.cell_width, cell_id);
    let n = update_node(u, cell_pos, k * u.colliders, read_node(nf, nw, k));
    write_node(nf, nw, k, n);
}

// Locks, then colliders; the cell's projections begin at `p`.
fn update_node(u: &Update, cell_pos: Point, p: usize, n: GridNode) -> GridNode
    requires { (length u.now.cf.now ≡ u.now.colliders * collider_floats) × ((p + u.now.colliders) * projection_floats ≤ length u.now.jf.now) × ((p + u.now.colliders) * projection_words ≤ length u.now.jw.now) }
    ensures { result ≡ after_colliders u.now.handling u.now.cell_width u.now.dt u.now.cf.now (store u.now.jf.now u.now.jw.now) (cell_pos.x ∷ cell_pos.y ∷ []) p u.now.colliders (locked_node u.now.simulation_dofs n) }
{
    meet_colliders(u, cell_pos, p, lock_node(u.simulation_dofs, n))
}

// Momentum and velocity are zero along locked axes.
#[tactic(auto, unfolding(crate::specs::Update::locked_node))]
fn lock_node(simulation_dofs: u32, n: GridNode) -> GridNode
    ensures { result ≡ locked_node simulation_dofs n }
{
    GridNode {
        momentum: lock(simulation_dofs, n.momentum),
        velocity: lock(simulation_dofs, n.velocity),
        ..n
    }
}

fn lock(simulation_dofs: u32, v: Vector) -> Vector
    ensures { axes result ≡ locked simulation_dofs (axes v) }
{
    Vector {
        x: lock_axis(simulation_dofs, v.x),
        y: lock_axis(simulation_dofs / 2, v.y),
    }
}

// Zero, if the lowest bit is set.
fn lock_axis(simulation_dofs: u32, x: f32) -> f32
    ensures { result ≡ cond (eqb (simulation_dofs % 2) 1) none x }
{
    if simulation_dofs % 2 == 1 { 0.0 } else { x }
}

// The colliders in order.
#[tactic(auto, unfolding(crate::specs::Update::after_colliders))]
fn meet_colliders(u: &Update, cell_pos: Point, p: usize, n: GridNode) -> GridNode
    requires { (length u.now.cf.now ≡ u.now.colliders * collider_floats) × ((p + u.now.colliders) * projection_floats ≤ length u.now.jf.now) × ((p + u.now.colliders) * projection_words ≤ length u.now.jw.now) }
    ensures { result ≡ after_colliders u.now.handling u.now.cell_width u.now.dt u.now.cf.now (store u.now.jf.now u.now.jw.now) (cell_pos.x ∷ cell_pos.y ∷ []) p u.now.colliders n }
{
    let mut cell = n;
    for j in 0..u.colliders {
        let contact = Contact {
            handling: u.handling,
            cell_width: u.cell_width,
            dt: u.dt,
            friction: u.cf[j * COLLIDER_FLOATS],
            cell_pos,
            proj: read_projection(u.jf, u.jw, p + j),
        };
        cell = meet_collider(contact, cell);
    }
    cell
}

// The projection at place k.
fn read_projection(jf: &[f32], jw: &[u32], k: usize) -> Projection
    requires { (k * projection_floats + projection_floats ≤ length jf.now) × (k * projection_words + projection_words ≤ length jw.now) }
    ensures { result ≡ projection_at (store jf.now jw.now) k }
{
    let x = jf[k * PROJECTION_FLOATS];
    let y = jf[k * PROJECTION_FLOATS + 1];
    if jw[k * PROJECTION_WORDS] == 0 {
        Projection::Outside(x, y)
    } else {
        Projection::Inside(x, y)
    }
}

// What a collider makes of a node.
#[tactic(auto, unfolding(crate::specs::Boundary::collided))]
fn meet_collider(contact: Contact, n: GridNode) -> GridNode
    ensures { result ≡ collided contact.handling contact.cell_width contact.dt contact.friction (contact.cell_pos.x ∷ contact.cell_pos.y ∷ []) contact.proj n }
{
    GridNode {
        velocity: handle(contact, n.velocity),
        boundary: set_boundary(contact.proj, n.boundary),
        ..n
    }
}

// The flag once on stays on.
fn set_boundary(proj: Projection, boundary: u32) -> u32
    ensures { result ≡ flagged (is_inside proj) boundary }
{
    if boundary != 0 {
        return boundary;
    }
    match proj {
        Projection::Inside(_, _) => 1,
        Projection::Outside(_, _) => 0,
    }
}

// What becomes of a velocity.
#[tactic(auto, unfolding(crate::specs::Boundary::handled))]
fn handle(contact: Contact, velocity: Vector) -> Vector
    ensures { axes result ≡ handled contact.handling contact.cell_width contact.dt contact.friction (contact.cell_pos.x ∷ contact.cell_pos.y ∷ []) contact.proj (axes velocity) }
{
    match contact.handling {
        BoundaryHandling::None => velocity,
        BoundaryHandling::Stick => stick(contact.proj, velocity),
        BoundaryHandling::Friction => rub(contact, velocity),
    }
}

fn stick(proj: Projection, velocity: Vector) -> Vector
    ensures { axes result ≡ cond (is_inside proj) (none ∷ none ∷ []) (axes velocity) }
{
    match proj {
        Projection::Inside(_, _) => Vector { x: 0.0, y: 0.0 },
        Projection::Outside(_, _) => velocity,
    }
}

fn rub(contact: Contact, velocity: Vector) -> Vector
    ensures { axes result ≡ rubbed contact.cell_width contact.dt contact.friction (is_inside contact.proj) (minus_all (contact.cell_pos.x ∷ contact.cell_pos.y ∷ []) (point_of contact.proj)) (axes velocity) }
{
    match contact.proj {
        Projection::Inside(x, y) => rub_at(
            contact,
            true,
            from_point(contact.cell_pos, x, y),
            velocity,
        ),
        Projection::Outside(x, y) => rub_at(
            contact,
            false,
            from_point(contact.cell_pos, x, y),
            velocity,
        ),
    }
}

// The vector from a projected point to the cell's centre.
fn from_point(cell_pos: Point, x: f32, y: f32) -> Vector
    ensures { axes result ≡ minus_all (cell_pos.x ∷ cell_pos.y ∷ []) (x ∷ y ∷ []) }
{
    Vector {
        x: cell_pos.x - x,
        y: cell_pos.y - y,
    }
}

// Friction, with the centre at this vector from the point.
#[tactic(auto, unfolding(crate::specs::Boundary::rubbed))]
fn rub_at(contact: Contact, inside: bool, offset: Vector, velocity: Vector) -> Vector
    ensures { axes result ≡ rubbed contact.cell_width contact.dt contact.friction inside (axes offset) (axes velocity) }
{
    let Some((normal, dist)) = try_new_and_get(offset) else {
        return velocity;
    };
    oppose(contact, inside, dist, turn(inside, normal), velocity)
}

// A unit vector with the length that it had, or none where that was too short.
fn try_new_and_get(v: Vector) -> Option<(Vector, f32)>
    ensures { result ≡ normal_of (axes v) }
{
    let least = 0.00001;
    if least * least < dot(v, v) {
        let length = norm(v);
        let normal = Vector {
            x: v.x / length,
            y: v.y / length,
        };
        Some((normal, length))
    } else {
        None
    }
}

// Inside the normal is turned around.
fn turn(inside: bool, normal: Vector) -> Vector
    ensures { axes result ≡ turned inside (axes normal) }
{
    if inside {
        Vector {
            x: -normal.x,
            y: -normal.y,
        }
    } else {
        normal
    }
}

// Only a velocity against the normal changes.
#[tactic(auto, unfolding(crate::specs::Boundary::against))]
fn oppose(contact: Contact, inside: bool, dist: f32, normal: Vector, velocity: Vector) -> Vector
    ensures { axes result ≡ against contact.cell_width contact.dt contact.friction inside dist (axes normal) (axes velocity) }
{
    let normal_vel = dot(velocity, normal);
    if normal_vel < 0.0 {
        meet(
            contact,
            inside,
            dist - contact.cell_width,
            normal_vel,
            normal,
            velocity,
        )
    } else {
        velocity
    }
}

// At the collider it slides, and one that would reach it in this substep is held back.
#[tactic(auto, unfolding(crate::specs::Boundary::met))]
fn meet(
    contact: Contact,
    inside: bool,
    dist_with_margin: f32,
    normal_vel: f32,
    normal: Vector,
    velocity: Vector,
) -> Vector
    ensures { axes result ≡ met contact.dt contact.friction inside dist_with_margin normal_vel (axes normal) (axes velocity) }
{
    if inside || dist_with_margin <= 0.0 {
        let tangent_vel = minus(velocity, normal_vel, normal);
        slide(contact.friction, normal_vel, tangent_vel)
    } else if dist_with_margin < -normal_vel * contact.dt {
        minus(velocity, dist_with_margin / contact.dt + normal_vel, normal)
    } else {
        velocity
    }
}

#[tactic(auto, unfolding(crate::specs::Boundary::slid))]
fn slide(friction: f32, normal_vel: f32, tangent_vel: Vector) -> Vector
    ensures { axes result ≡ slid friction normal_vel (axes tangent_vel) }
{
    let tangent_vel_norm = norm(tangent_vel);
    if 0.0000000001 < tangent_vel_norm {
        let left = numeric::max(tangent_vel_norm + normal_vel * friction, 0.0);
        Vector {
            x: tangent_vel.x / tangent_vel_norm * left,
            y: tangent_vel.y / tangent_vel_norm * left,
        }
    } else {
        tangent_vel
    }
}

// v - c·n
fn minus(v: Vector, c: f32, n: Vector) -> Vector
    ensures { axes result ≡ less (axes v) c (axes n) }
{
    Vector {
        x: v.x - c * n.x,
        y: v.y - c * n.y,
    }
}

fn norm(v: Vector) -> f32
    ensures { result ≡ norm (axes v) }
{
    numeric::root(dot(v, v))
}

fn dot(a: Vector, b: Vector) -> f32
    ensures { result ≡ dot (axes a) (axes b) }
{
    a.x * b.x + a.y * b.y
}

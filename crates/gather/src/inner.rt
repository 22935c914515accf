// What a call of each half is refused for, and the nodes that a stage gathers from. No host reaches this; those that read a node demand of their caller what the check has shown.
ghost use Rattle.std.specs.Prelude.{◌≡◌, ℕ, ◌*◌, ◌<◌, ◌≤◌, List, [], ◌∷◌, length};
ghost use Rattle.laws.specs.Store.{store, Holds};
ghost use Rattle.grid.specs.Nodes.{node_form};
ghost use Rattle.grid.specs.Table.{is_flag, codes, matches};
ghost use Rattle.particles.specs.Blocks.{found_at, place_at};
ghost use Rattle.particles.specs.Particles.{floats_per_particle, words_per_particle};
ghost use Rattle.gather.specs.Gather.{node_found, Adds, over_columns, Serves, given_lengths, first_check, records_check, second_check};

use crate::grid_to_particle::{GIVEN_FLOATS, GIVEN_WORDS};
use cells::inner::{STENCIL_SIDE, step};
use grid::grid_node::GridNode;
use grid::inner::{
    check_call, check_flags, check_limits, check_numbers, fits, is_step, is_width, read_node,
    refuse,
};
use grid::{Answer, Rule};
use packing::dim2::Cell;
use particles::inner::blocks::{BLOCK_SIDE, found_at};
use particles::inner::checks::{check_stage, first_particle, holds_particles};

// What the nine nodes of a stencil add up to on top of `start`, column by column, by the places of its region's block.
pub fn over_stencil<A: Copy, F: Fn(A, Cell, GridNode) -> A>(
    block: &[usize; 36],
    corner: usize,
    nf: &[f32],
    nw: &[u32],
    start: A,
    add: F,
) -> A
    requires { (corner < 22) × Serves block.now corner (store nf.now nw.now) × ((a : A) (shift : Cell) (n : GridNode) → shift.x < 3 → shift.y < 3 → F.pre add a shift n) }
    ensures { (step : List ℕ → GridNode → A → A) → Adds (F.post add) step → result ≡ over_columns (store nf.now nw.now) step block.now corner 3 start }
{
    let mut sum = start;
    for i in 0..STENCIL_SIDE {
        for j in 0..STENCIL_SIDE {
            let shift = Cell {
                x: step(i),
                y: step(j),
            };
            sum = add(sum, shift, node_in(block, corner, shift, nf, nw));
        }
    }
    sum
}

// The node that lies by a shift beyond the corner of a stencil, by the places of its region's block.
pub fn node_in(block: &[usize; 36], corner: usize, shift: Cell, nf: &[f32], nw: &[u32]) -> GridNode
    requires { (corner < 22) × (shift.x < 3) × (shift.y < 3) × Serves block.now corner (store nf.now nw.now) }
    ensures { result ≡ node_found (store nf.now nw.now) (place_at block.now corner shift.x shift.y) }
{
    node_at(
        block[corner + (shift.x as usize + BLOCK_SIDE * shift.y as usize)],
        nf,
        nw,
    )
}

// The node at a place, as a block numbers it.
fn node_at(number: usize, nf: &[f32], nw: &[u32]) -> GridNode
    requires { (0 < number) × (number ≤ length nw.now) × Holds node_form (store nf.now nw.now) (length nw.now) }
    ensures { result ≡ node_found (store nf.now nw.now) (found_at number) }
{
    read_node(nf, nw, place_of(number))
}

// The place that a number of a block stands for. There is one, as the check has shown, so that no call comes to the else arm. That answers by the expression that `found_at` has for
// a place: the arms are then one, and none of the nine nodes costs a branch.
fn place_of(number: usize) -> usize
    requires { 0 < number }
    ensures { found_at number ≡ Some result }
{
    let Some(k) = found_at(number) else {
        return number.wrapping_sub(1);
    };
    k
}

pub(crate) fn check_first_half(
    cell_width: f32,
    dt: f32,
    modified_eigenerosion: u32,
    regions: usize,
    ids: &[u64],
    ranges: &[u64],
    particles: usize,
    pf: &[f32],
    pw: &[u32],
    nf: usize,
    nw: usize,
) -> Answer
    ensures { result ≡ first_check cell_width dt modified_eigenerosion regions ids.now ranges.now particles (store pf.now pw.now) nf nw }
{
    check_stage(
        is_width(cell_width) && is_step(dt),
        check_own(modified_eigenerosion),
        cell_width,
        regions,
        ids,
        ranges,
        particles,
        pf,
        pw,
        nf,
        nw,
    )
}

// The first half's own setting in 4, as the host passed it: a number, of which only 0 and 1 are flags.
fn check_own(modified_eigenerosion: u32) -> Answer
    ensures { result ≡ codes (is_flag modified_eigenerosion ∷ []) }
{
    refuse(1 < modified_eigenerosion, Rule::Code, 0)
}

pub(crate) fn check_second_half(
    particles: usize,
    pf: &[f32],
    pw: &[u32],
    gf: &[f32],
    gw: &[u32],
) -> Answer
    ensures { result ≡ second_check particles (store pf.now pw.now) (store gf.now gw.now) }
{
    check_call(
        holds_particles(particles, pf.len(), pw.len())
            && holds_given(particles, gf.len(), gw.len()),
        check_limits(0, particles, 0),
        true,
        Ok(()),
    )?;
    check_records(particles, pf, pw, gf, gw)
}

// Whether slices of these lengths hold what is given for so many particles.
fn holds_given(particles: usize, gf: usize, gw: usize) -> bool
    ensures { result ≡ matches (given_lengths particles gf gw) }
{
    fits(gf, particles, GIVEN_FLOATS) && fits(gw, particles, GIVEN_WORDS)
}

// Numbers 4 and 5 of the records: the particles, then what is given. Neither rule looks at the cell width or at regions.
fn check_records(particles: usize, pf: &[f32], pw: &[u32], gf: &[f32], gw: &[u32]) -> Answer
    requires { (particles * floats_per_particle ≤ length pf.now) × (particles * words_per_particle ≤ length pw.now) }
    ensures { result ≡ records_check particles (store pf.now pw.now) (store gf.now gw.now) }
{
    let region = [0];
    first_particle(Rule::Code, 0.0, &region, 0, pf, pw, 0, particles)?;
    check_flags(gw)?;
    first_particle(Rule::NotFinite, 0.0, &region, 0, pf, pw, 0, particles)?;
    check_numbers(gf, GIVEN_FLOATS)
}

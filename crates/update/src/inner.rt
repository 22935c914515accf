// What the solver's calls share with the update. No host reaches this.
ghost use Rattle.std.specs.Prelude.{◌≡◌, ◌*◌, ◌<◌, eqb};
ghost use Rattle.laws.specs.Store.{store};
ghost use Rattle.grid.specs.Table.{matches};
ghost use Rattle.update.specs.Update.{projection_lengths, given, own_check, update_check};

use crate::grid_update::{BoundaryHandling, COLLIDER_FLOATS, PROJECTION_FLOATS, PROJECTION_WORDS};
use grid::grid_node::CELLS_OF_REGION;
use grid::inner::{
    check_call, check_flags, check_limits, check_numbers, check_regions, fits, holds_nodes,
    is_step, is_width, refuse,
};
use grid::{Answer, Rule};

// What a call of the update is refused for; its parameters are the call's, as a host lends them.
#[tactic(auto, using(crate::proofs::Checking::check_is))]
pub fn check_update(
    cell_width: f32,
    dt: f32,
    boundary_handling: u32,
    simulation_dofs: u32,
    regions: usize,
    ids: &[u64],
    colliders: usize,
    cf: &[f32],
    jf: &[f32],
    jw: &[u32],
    nf: usize,
    nw: usize,
) -> Answer
    ensures { result ≡ update_check cell_width dt boundary_handling simulation_dofs regions ids.now colliders cf.now (store jf.now jw.now) nf nw }
{
    check_call(
        // By `&`: the tests are one value for `check_call`; over the branches of `&&` neither `search` nor `grind` with `check_is` closed its proof.
        (ids.len() == regions)
            & (fits(cf.len(), colliders, COLLIDER_FLOATS)
                & (holds_projections(regions, colliders, jf.len(), jw.len())
                    & holds_nodes(regions, nf, nw))),
        check_limits(regions, 0, colliders),
        is_width(cell_width) & is_step(dt),
        check_own(boundary_handling, simulation_dofs),
    )?;
    check_given(ids, cf, jf, jw)
}

// Whether slices of these lengths hold the projections of so many regions and colliders.
pub fn holds_projections(regions: usize, colliders: usize, jf: usize, jw: usize) -> bool
    ensures { result ≡ matches (projection_lengths regions colliders jf jw) }
{
    fits_both(jf, regions, colliders, CELLS_OF_REGION * PROJECTION_FLOATS)
        && fits_both(jw, regions, colliders, CELLS_OF_REGION * PROJECTION_WORDS)
}

// Whether `len` is `a` times `b` times `each`; no product wraps.
#[tactic(auto, using(grid::proofs::Lengths::whole, grid::proofs::Lengths::quotient))]
fn fits_both(len: usize, a: usize, b: usize, each: usize) -> bool
    requires { 0 < each }
    ensures { result ≡ eqb len (a * b * each) }
{
    len % each == 0 && fits(len / each, a, b)
}

// The call's own settings in 4, as the host passed them: the boundary's code, and the locks.
pub fn check_own(boundary_handling: u32, simulation_dofs: u32) -> Answer
    ensures { result ≡ own_check boundary_handling simulation_dofs }
{
    BoundaryHandling::try_from(boundary_handling)?;
    refuse(3 < simulation_dofs, Rule::Code, 0)
}

// Numbers 4 to 6 of what is given.
#[tactic(auto, unfolding(crate::specs::Update::given))]
fn check_given(ids: &[u64], cf: &[f32], jf: &[f32], jw: &[u32]) -> Answer
    ensures { result ≡ given ids.now cf.now (store jf.now jw.now) }
{
    check_flags(jw)?;
    check_numbers(cf, COLLIDER_FLOATS)?;
    check_numbers(jf, PROJECTION_FLOATS)?;
    check_regions(ids)
}

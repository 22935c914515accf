// What the ids of the plane and those of the solid have in common.
ghost use Rattle.std.specs.Prelude.{◌≡◌, ℕ, ◌*◌, ◌/◌, ◌%◌, ◌^◌, ◌≤◌, map, length};
ghost use Rattle.packing.specs.Mask.{packed};
ghost use Rattle.packing.specs.Ids.{Dim, sum, diagonal, minus_one, minus_two, plus_five, number, to_fours, cell_of, in_colour, region_neighbours, packed_shifts, packed_region_shifts, stencil_of};

use crate::{PACK_ALIGN, PACK_HEADER, region_of};

// A stencil has SHIFTS cells, and a region NEIGHBORS neighbours. The constants are functions here, so that a clause says what each is.
#[tactic(auto, unfolding(crate::specs::Ids::colour, crate::specs::Ids::region_neighbours, crate::specs::Ids::stencil_of))]
pub trait Space<const SHIFTS: usize, const NEIGHBORS: usize> {
    ghost dim: { Dim };

    // How many cells a region has. A cell's number there stands in its id from bit 6 on.
    fn cells() -> u64
        ensures count { result ≡ 4 ^ length dim.sum_axes }
        ensures few { result ≤ 64 }
        ensures read { (id : ℕ) → number dim id ≡ id / 2 ^ 6 % result }
        ensures placed { (n : ℕ) → packed dim.sum_axes (to_fours dim.sum_axes n) ≡ (n % result) * 2 ^ 6 };

    // How many colours regions have.
    fn colors() -> u64
        ensures { result ≡ 2 ^ length dim.sum_axes };

    // The cell at -1 on each axis, at -2, and at 5.
    fn neg_one() -> u64
        ensures { result ≡ diagonal dim minus_one };

    fn neg_two() -> u64
        ensures { result ≡ diagonal dim minus_two };

    fn plus_five() -> u64
        ensures { result ≡ diagonal dim plus_five };

    fn nbh_shifts() -> [u64; SHIFTS]
        ensures { result ≡ packed_shifts dim };

    fn nbh_region_shifts() -> [u64; NEIGHBORS]
        ensures { result ≡ packed_region_shifts dim };

    // The id of the sum of two cells.
    fn packed_add(i: u64, j: u64) -> u64
        ensures { result ≡ sum dim i j };

    final fn shift_cell_neg_one(cell_id: u64) -> u64
        ensures { result ≡ sum dim cell_id (diagonal dim minus_one) }
    {
        Self::packed_add(cell_id, Self::neg_one())
    }

    final fn shift_cell_neg_two(cell_id: u64) -> u64
        ensures { result ≡ sum dim cell_id (diagonal dim minus_two) }
    {
        Self::packed_add(cell_id, Self::neg_two())
    }

    final fn shift_cell_plus_five(cell_id: u64) -> u64
        ensures { result ≡ sum dim cell_id (diagonal dim plus_five) }
    {
        Self::packed_add(cell_id, Self::plus_five())
    }

    // The number of a cell in its region: x + 4·y, and 16·z in 3D.
    final fn number_in_region(cell_id: u64) -> u64
        ensures { result ≡ number dim cell_id }
    {
        (cell_id >> PACK_ALIGN) % Self::cells()
    }

    // The cell of a region by its number, modulo the cells of a region.
    final fn cell_of_region(region_id: u64, number: u64) -> u64
        ensures { result ≡ cell_of dim region_id number }
    {
        Self::packed_add(region_of(region_id), (number % Self::cells()) << PACK_ALIGN)
    }

    // Whether a region has the colour; no region has a colour beyond the last.
    final fn is_in_region_with_color(region_id: u64, color: u64) -> bool
        ensures { result ≡ in_colour dim region_id color }
    {
        (region_id >> PACK_HEADER) % Self::colors() == color
    }

    // The regions, other than its own, that a region's stencils reach.
    final fn region_neighbors(region_id: u64) -> [u64; NEIGHBORS]
        ensures { result ≡ region_neighbours dim region_id }
    {
        shifted::<Self, SHIFTS, NEIGHBORS, NEIGHBORS>(region_id, Self::nbh_region_shifts())
    }

    // The ids of a cell's stencil, in order.
    final fn stencil(cell_id: u64) -> [u64; SHIFTS]
        ensures { result ≡ stencil_of dim cell_id }
    {
        shifted::<Self, SHIFTS, NEIGHBORS, SHIFTS>(cell_id, Self::nbh_shifts())
    }
}

// The sums of an id and each shift, in order.
fn shifted<
    S: Space<SHIFTS, NEIGHBORS>,
    const SHIFTS: usize,
    const NEIGHBORS: usize,
    const N: usize,
>(id: u64, shifts: [u64; N]) -> [u64; N]
    ensures { result ≡ map (sum S.dim id) shifts.entry }
{
    let mut ids = shifts;
    for x in &mut ids {
        *x = S::packed_add(id, *x);
    }
    ids
}

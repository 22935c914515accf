// Packed ids of the cells of a sparse grid: sums, regions, colours, neighbours, in 2D and 3D. Whole numbers only.
#![tactic(auto)]

pub mod dim2;
pub mod dim3;
mod morton;
mod space;

ghost use Rattle.std.specs.Prelude.{◌≡◌};
ghost use Rattle.packing.specs.Mask.{axis_sum};
ghost use Rattle.packing.specs.Ids.{region};

pub use dim2::Plane;
pub use dim3::Solid;
pub use space::Space;

// The region part of an id starts at this bit, and the cell's number inside its region at that one.
pub const PACK_HEADER: u32 = 12;

pub const PACK_ALIGN: u32 = 6;

// Keeps the region part of an id.
pub const REGION_ID_MASK: u64 = 0xffff_ffff_ffff_f000;

// The coordinates that `mask` marks in i and j, added modulo 2 to the number of the mask's bits.
pub fn masked_add(mask: u64, i: u64, j: u64) -> u64
    ensures { result ≡ axis_sum mask i j }
{
    std::num::wrapping_add_u64(i & mask, j | !mask) & mask
}

// The region of a cell: its id with the low 12 bits zero.
pub fn region_of(cell_id: u64) -> u64
    ensures { result ≡ region cell_id }
{
    cell_id & REGION_ID_MASK
}

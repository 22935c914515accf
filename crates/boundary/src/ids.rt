// Packing over the boundary. A list of ids crosses as a struct by value, so that no caller can get its length wrong.
ghost use Rattle.std.specs.Prelude.{cond, [], ◌∷◌, ◌≡◌};
ghost use Rattle.packing.specs.Mask.{axis_sum};
ghost use Rattle.packing.specs.Ids.{dim2, dim3, region, packed_id, coordinates, sum, complement, diagonal, minus_one, minus_two, plus_five, number, cell_of, in_colour, region_neighbours, packed_shifts, packed_region_shifts, stencil_of};

use packing::{Plane, Solid, Space};

// A struct for each length: the type of an exported function has no parameters.
#[repr(C)]
#[derive(Clone, Copy)]
pub struct Ids3 {
    pub ids: [u64; 3],
}

#[repr(C)]
#[derive(Clone, Copy)]
pub struct Ids7 {
    pub ids: [u64; 7],
}

#[repr(C)]
#[derive(Clone, Copy)]
pub struct Ids9 {
    pub ids: [u64; 9],
}

#[repr(C)]
#[derive(Clone, Copy)]
pub struct Ids27 {
    pub ids: [u64; 27],
}

#[unsafe(no_mangle)]
pub extern "C" fn mk_masked_add(mask: u64, i: u64, j: u64) -> u64
    ensures { result ≡ axis_sum mask i j }
{
    packing::masked_add(mask, i, j)
}

#[unsafe(no_mangle)]
pub extern "C" fn mk_region_of(cell_id: u64) -> u64
    ensures { result ≡ region cell_id }
{
    packing::region_of(cell_id)
}

#[unsafe(no_mangle)]
pub extern "C" fn mk_pack2(x: u32, y: u32) -> u64
    ensures { result ≡ packed_id dim2 (x ∷ y ∷ []) }
{
    packing::dim2::pack(x, y)
}

#[unsafe(no_mangle)]
pub extern "C" fn mk_packi2(x: i32, y: i32) -> u64
    ensures { result ≡ packed_id dim2 (complement x ∷ complement y ∷ []) }
{
    packing::dim2::packi(x, y)
}

#[unsafe(no_mangle)]
pub extern "C" fn mk_unpack2(xy: u64) -> packing::dim2::Cell
    ensures { result.x ∷ result.y ∷ [] ≡ coordinates dim2 xy }
{
    packing::dim2::unpack(xy)
}

#[unsafe(no_mangle)]
pub extern "C" fn mk_packed_add2(i: u64, j: u64) -> u64
    ensures { result ≡ sum dim2 i j }
{
    Plane::packed_add(i, j)
}

#[unsafe(no_mangle)]
pub extern "C" fn mk_shift_cell_neg_one2(cell_id: u64) -> u64
    ensures { result ≡ sum dim2 cell_id (diagonal dim2 minus_one) }
{
    Plane::shift_cell_neg_one(cell_id)
}

#[unsafe(no_mangle)]
pub extern "C" fn mk_shift_cell_neg_two2(cell_id: u64) -> u64
    ensures { result ≡ sum dim2 cell_id (diagonal dim2 minus_two) }
{
    Plane::shift_cell_neg_two(cell_id)
}

#[unsafe(no_mangle)]
pub extern "C" fn mk_shift_cell_plus_five2(cell_id: u64) -> u64
    ensures { result ≡ sum dim2 cell_id (diagonal dim2 plus_five) }
{
    Plane::shift_cell_plus_five(cell_id)
}

#[unsafe(no_mangle)]
pub extern "C" fn mk_number_in_region2(cell_id: u64) -> u64
    ensures { result ≡ number dim2 cell_id }
{
    Plane::number_in_region(cell_id)
}

#[unsafe(no_mangle)]
pub extern "C" fn mk_cell_of_region2(region_id: u64, number: u64) -> u64
    ensures { result ≡ cell_of dim2 region_id number }
{
    Plane::cell_of_region(region_id, number)
}

// 1 for yes, 0 for no: a C caller may leave more than one bit in a bool.
#[unsafe(no_mangle)]
pub extern "C" fn mk_is_in_region_with_color2(region_id: u64, color: u64) -> u32
    ensures { result ≡ cond (in_colour dim2 region_id color) 1 0 }
{
    u32::from(Plane::is_in_region_with_color(region_id, color))
}

#[unsafe(no_mangle)]
pub extern "C" fn mk_region_neighbors2(region_id: u64) -> Ids3
    ensures { result.ids ≡ region_neighbours dim2 region_id }
{
    Ids3 {
        ids: Plane::region_neighbors(region_id),
    }
}

#[unsafe(no_mangle)]
pub extern "C" fn mk_nbh_shifts2() -> Ids9
    ensures { result.ids ≡ packed_shifts dim2 }
{
    Ids9 {
        ids: Plane::nbh_shifts(),
    }
}

#[unsafe(no_mangle)]
pub extern "C" fn mk_nbh_region_shifts2() -> Ids3
    ensures { result.ids ≡ packed_region_shifts dim2 }
{
    Ids3 {
        ids: Plane::nbh_region_shifts(),
    }
}

#[unsafe(no_mangle)]
pub extern "C" fn mk_stencil_ids2(cell_id: u64) -> Ids9
    ensures { result.ids ≡ stencil_of dim2 cell_id }
{
    Ids9 {
        ids: Plane::stencil(cell_id),
    }
}

#[unsafe(no_mangle)]
pub extern "C" fn mk_pack3(x: u32, y: u32, z: u32) -> u64
    ensures { result ≡ packed_id dim3 (x ∷ y ∷ z ∷ []) }
{
    packing::dim3::pack(x, y, z)
}

#[unsafe(no_mangle)]
pub extern "C" fn mk_packi3(x: i32, y: i32, z: i32) -> u64
    ensures { result ≡ packed_id dim3 (complement x ∷ complement y ∷ complement z ∷ []) }
{
    packing::dim3::packi(x, y, z)
}

#[unsafe(no_mangle)]
pub extern "C" fn mk_unpack3(xyz: u64) -> packing::dim3::Cell
    ensures { result.x ∷ result.y ∷ result.z ∷ [] ≡ coordinates dim3 xyz }
{
    packing::dim3::unpack(xyz)
}

#[unsafe(no_mangle)]
pub extern "C" fn mk_packed_add3(i: u64, j: u64) -> u64
    ensures { result ≡ sum dim3 i j }
{
    Solid::packed_add(i, j)
}

#[unsafe(no_mangle)]
pub extern "C" fn mk_shift_cell_neg_one3(cell_id: u64) -> u64
    ensures { result ≡ sum dim3 cell_id (diagonal dim3 minus_one) }
{
    Solid::shift_cell_neg_one(cell_id)
}

#[unsafe(no_mangle)]
pub extern "C" fn mk_shift_cell_neg_two3(cell_id: u64) -> u64
    ensures { result ≡ sum dim3 cell_id (diagonal dim3 minus_two) }
{
    Solid::shift_cell_neg_two(cell_id)
}

#[unsafe(no_mangle)]
pub extern "C" fn mk_shift_cell_plus_five3(cell_id: u64) -> u64
    ensures { result ≡ sum dim3 cell_id (diagonal dim3 plus_five) }
{
    Solid::shift_cell_plus_five(cell_id)
}

#[unsafe(no_mangle)]
pub extern "C" fn mk_number_in_region3(cell_id: u64) -> u64
    ensures { result ≡ number dim3 cell_id }
{
    Solid::number_in_region(cell_id)
}

#[unsafe(no_mangle)]
pub extern "C" fn mk_cell_of_region3(region_id: u64, number: u64) -> u64
    ensures { result ≡ cell_of dim3 region_id number }
{
    Solid::cell_of_region(region_id, number)
}

#[unsafe(no_mangle)]
pub extern "C" fn mk_is_in_region_with_color3(region_id: u64, color: u64) -> u32
    ensures { result ≡ cond (in_colour dim3 region_id color) 1 0 }
{
    u32::from(Solid::is_in_region_with_color(region_id, color))
}

#[unsafe(no_mangle)]
pub extern "C" fn mk_region_neighbors3(region_id: u64) -> Ids7
    ensures { result.ids ≡ region_neighbours dim3 region_id }
{
    Ids7 {
        ids: Solid::region_neighbors(region_id),
    }
}

#[unsafe(no_mangle)]
pub extern "C" fn mk_nbh_shifts3() -> Ids27
    ensures { result.ids ≡ packed_shifts dim3 }
{
    Ids27 {
        ids: Solid::nbh_shifts(),
    }
}

#[unsafe(no_mangle)]
pub extern "C" fn mk_nbh_region_shifts3() -> Ids7
    ensures { result.ids ≡ packed_region_shifts dim3 }
{
    Ids7 {
        ids: Solid::nbh_region_shifts(),
    }
}

#[unsafe(no_mangle)]
pub extern "C" fn mk_stencil_ids3(cell_id: u64) -> Ids27
    ensures { result.ids ≡ stencil_of dim3 cell_id }
{
    Ids27 {
        ids: Solid::stencil(cell_id),
    }
}

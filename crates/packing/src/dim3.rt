// 3D ids: 20 bits of x, 19 of y and z, regions of 4 by 4 by 4 cells; a sum keeps 19 bits of each and ignores bit 63.
#![tactic(auto, unfolding(crate::specs::Ids::dim3, crate::specs::Ids::coordinates, crate::specs::Ids::diagonal, crate::specs::Ids::packed_shifts, crate::specs::Ids::packed_region_shifts, crate::specs::Mask::packed, crate::specs::Mask::place, crate::specs::Mask::coords))]

ghost use Rattle.std.specs.Prelude.{◌≡◌, [], ◌∷◌};
ghost use Rattle.packing.specs.Ids.{dim3, packed_id, coordinates, complement};

use crate::morton::{put, take};
use crate::space::Space;
use crate::{PACK_HEADER, masked_add};

pub const BLOCK_MX: u64 = 0x1249_2492_4924_90c0;

pub const BLOCK_MY: u64 = 0x2492_4924_9249_2300;

pub const BLOCK_MZ: u64 = 0x4924_9249_2492_4c00;

pub const REGION_COLOR_MASK: u64 = 0x7000;

pub const PACKED_NEG_ONE: u64 = 18446744073709551552;

pub const PACKED_NEG_TWO: u64 = 18446744073709550208;

pub const PACKED_PLUS_FIVE: u64 = 30016;

pub const PACKED_NBH_SHIFTS: [u64; 27] = [
    2688, 2176, 2432, 2560, 2048, 2304, 2624, 2112, 2368, 640, 128, 384, 512, 0, 256, 576, 64, 320,
    1664, 1152, 1408, 1536, 1024, 1280, 1600, 1088, 1344,
];

pub const PACKED_NBH_REGION_SHIFTS: [u64; 7] = [16384, 8192, 24576, 4096, 20480, 12288, 28672];

// It crosses the C interface.
#[repr(C)]
#[derive(Clone, Copy)]
pub struct Cell {
    pub x: u32,
    pub y: u32,
    pub z: u32,
}

pub struct Solid;

impl Space<27, 7> for Solid {
    ghost dim = { dim3 };

    fn cells() -> u64 {
        64
    }

    fn colors() -> u64 {
        prove!(REGION_COLOR_MASK % (1 << PACK_HEADER) == 0);
        (REGION_COLOR_MASK >> PACK_HEADER) + 1
    }

    fn neg_one() -> u64 {
        PACKED_NEG_ONE
    }

    fn neg_two() -> u64 {
        PACKED_NEG_TWO
    }

    fn plus_five() -> u64 {
        PACKED_PLUS_FIVE
    }

    fn nbh_shifts() -> [u64; 27] {
        PACKED_NBH_SHIFTS
    }

    fn nbh_region_shifts() -> [u64; 7] {
        PACKED_NBH_REGION_SHIFTS
    }

    fn packed_add(i: u64, j: u64) -> u64 {
        masked_add(BLOCK_MX, i, j) | masked_add(BLOCK_MY, i, j) | masked_add(BLOCK_MZ, i, j)
    }
}

// The id of the cell at (x, y, z). No method of `Space`, nor is what follows: each takes or answers a number for each axis.
pub fn pack(x: u32, y: u32, z: u32) -> u64
    ensures { result ≡ packed_id dim3 (x ∷ y ∷ z ∷ []) }
{
    put::<3>(0, x) | put::<3>(1, y) | put::<3>(2, z)
}

// The same of signed coordinates, in two's complement.
pub fn packi(x: i32, y: i32, z: i32) -> u64
    ensures { result ≡ packed_id dim3 (complement x ∷ complement y ∷ complement z ∷ []) }
{
    pack(x.cast_unsigned(), y.cast_unsigned(), z.cast_unsigned())
}

// The coordinates of an id, whatever its stray bits.
pub fn unpack(xyz: u64) -> Cell
    ensures { result.x ∷ result.y ∷ result.z ∷ [] ≡ coordinates dim3 xyz }
{
    Cell {
        x: take::<3>(0, xyz),
        y: take::<3>(1, xyz),
        z: take::<3>(2, xyz),
    }
}

// 2D ids: 28 bits of each coordinate, regions of 4 by 4 cells.
#![tactic(auto, unfolding(crate::specs::Ids::dim2, crate::specs::Ids::coordinates, crate::specs::Ids::diagonal, crate::specs::Ids::packed_shifts, crate::specs::Ids::packed_region_shifts, crate::specs::Mask::packed, crate::specs::Mask::place, crate::specs::Mask::coords))]

ghost use Rattle.std.specs.Prelude.{◌≡◌, [], ◌∷◌};
ghost use Rattle.packing.specs.Ids.{dim2, packed_id, coordinates, complement};

use crate::morton::{put, take};
use crate::space::Space;
use crate::{PACK_HEADER, masked_add};

pub const BLOCK_MX: u64 = 0x5555_5555_5555_50c0;

pub const BLOCK_MY: u64 = 0xaaaa_aaaa_aaaa_a300;

pub const REGION_COLOR_MASK: u64 = 0x3000;

pub const PACKED_NEG_ONE: u64 = 18446744073709548480;

pub const PACKED_NEG_TWO: u64 = 18446744073709548160;

pub const PACKED_PLUS_FIVE: u64 = 12608;

pub const PACKED_NBH_SHIFTS: [u64; 9] = [640, 128, 384, 512, 0, 256, 576, 64, 320];

pub const PACKED_NBH_REGION_SHIFTS: [u64; 3] = [8192, 12288, 4096];

// It crosses the C interface.
#[repr(C)]
#[derive(Clone, Copy)]
pub struct Cell {
    pub x: u32,
    pub y: u32,
}

pub struct Plane;

impl Space<9, 3> for Plane {
    ghost dim = { dim2 };

    fn cells() -> u64 {
        16
    }

    fn colors() -> u64 {
        prove!(REGION_COLOR_MASK % (1 << PACK_HEADER) == 0);
        (REGION_COLOR_MASK >> PACK_HEADER) + 1
    }

    fn neg_one() -> u64 {
        PACKED_NEG_ONE
    }

    fn neg_two() -> u64 {
        PACKED_NEG_TWO
    }

    fn plus_five() -> u64 {
        PACKED_PLUS_FIVE
    }

    fn nbh_shifts() -> [u64; 9] {
        PACKED_NBH_SHIFTS
    }

    fn nbh_region_shifts() -> [u64; 3] {
        PACKED_NBH_REGION_SHIFTS
    }

    fn packed_add(i: u64, j: u64) -> u64 {
        masked_add(BLOCK_MX, i, j) | masked_add(BLOCK_MY, i, j)
    }
}

// The id of the cell at (x, y): the 28 low bits of each. No method of `Space`, nor is what follows: each takes or answers a number for each axis.
pub fn pack(x: u32, y: u32) -> u64
    ensures { result ≡ packed_id dim2 (x ∷ y ∷ []) }
{
    put::<2>(0, x) | put::<2>(1, y)
}

// The same of signed coordinates, in two's complement.
pub fn packi(x: i32, y: i32) -> u64
    ensures { result ≡ packed_id dim2 (complement x ∷ complement y ∷ []) }
{
    pack(x.cast_unsigned(), y.cast_unsigned())
}

// The coordinates of an id, whatever its stray bits.
pub fn unpack(xy: u64) -> Cell
    ensures { result.x ∷ result.y ∷ [] ≡ coordinates dim2 xy }
{
    Cell {
        x: take::<2>(0, xy),
        y: take::<2>(1, xy),
    }
}

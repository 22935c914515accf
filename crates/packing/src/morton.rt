// Morton's steps: a coordinate's bits as many places apart as there are axes, and back.
ghost use Rattle.std.specs.Prelude.{◌≡◌, ◌+◌, ◌*◌, ◌%◌, ◌<◌, ◌⊎◌, ◌==◌, cond};
ghost use Rattle.packing.specs.Mask.{place, coord};
ghost use Rattle.packing.specs.Ids.{axis, digits_by};

use crate::{PACK_ALIGN, PACK_HEADER};

// Where the bits stand before each step apart and after the last, of two axes and of three.
const MASKS_2: [u64; 6] = [
    0x0000_0000_ffff_ffff,
    0x0000_ffff_0000_ffff,
    0x00ff_00ff_00ff_00ff,
    0x0f0f_0f0f_0f0f_0f0f,
    0x3333_3333_3333_3333,
    0x5555_5555_5555_5555,
];

const MASKS_3: [u64; 6] = [
    0x0000_0000_001f_ffff,
    0x001f_0000_0000_ffff,
    0x001f_0000_ff00_00ff,
    0x100f_00f0_0f00_f00f,
    0x10c3_0c30_c30c_30c3,
    0x1249_2492_4924_9249,
];

fn masks<const AXES: u32>() -> [u64; 6]
    ensures { result ≡ cond (AXES == 2) MASKS_2 MASKS_3 }
{
    if AXES == 2 { MASKS_2 } else { MASKS_3 }
}

// The low bits of v, AXES places apart.
fn spread<const AXES: u32>(v: u64) -> u64
    requires { (AXES ≡ 2) ⊎ (AXES ≡ 3) }
    ensures { result ≡ place (digits_by (λ b. b % AXES == 0) 63 0) v }
{
    let [m0, m1, m2, m3, m4, m5] = masks::<AXES>();
    let gap = AXES - 1;
    let a = v & m0;
    let b = (a | (a << (16 * gap))) & m1;
    let c = (b | (b << (8 * gap))) & m2;
    let d = (c | (c << (4 * gap))) & m3;
    let e = (d | (d << (2 * gap))) & m4;
    (e | (e << gap)) & m5
}

// The bits of v that stand AXES places apart, put together.
fn compact<const AXES: u32>(v: u64) -> u64
    requires { (AXES ≡ 2) ⊎ (AXES ≡ 3) }
    ensures { result ≡ coord (digits_by (λ b. b % AXES == 0) 63 0) v }
{
    let [m0, m1, m2, m3, m4, m5] = masks::<AXES>();
    let gap = AXES - 1;
    let a = v & m5;
    let b = (a | (a >> gap)) & m4;
    let c = (b | (b >> (2 * gap))) & m3;
    let d = (c | (c >> (4 * gap))) & m2;
    let e = (d | (d >> (8 * gap))) & m1;
    (e | (e >> (16 * gap))) & m0
}

// A coordinate in its place on axis k: two bits in the cell's number, and the rest in the region.
pub(crate) fn put<const AXES: u32>(k: u32, coordinate: u32) -> u64
    requires of { (AXES ≡ 2) ⊎ (AXES ≡ 3) }
    requires within { k < AXES }
    ensures { result ≡ place (axis (6 + 2 * k) (12 + k) AXES) coordinate }
{
    let c = u64::from(coordinate);
    (spread::<AXES>(c >> 2) << (PACK_HEADER + k)) | ((c & 3) << (PACK_ALIGN + 2 * k))
}

// The coordinate on axis k of an id, whatever its stray bits.
pub(crate) fn take<const AXES: u32>(k: u32, id: u64) -> u32
    requires of { (AXES ≡ 2) ⊎ (AXES ≡ 3) }
    requires within { k < AXES }
    ensures { result ≡ coord (axis (6 + 2 * k) (12 + k) AXES) id }
{
    let c = (compact::<AXES>(id >> (PACK_HEADER + k)) << 2) | ((id >> (PACK_ALIGN + 2 * k)) & 3);
    c as u32
}

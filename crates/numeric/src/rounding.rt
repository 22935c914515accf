// Whole numbers and f32: rounding to one, the cast to a u32, and the f32 nearest to one.
ghost use Rattle.std.specs.Prelude.{◌≡◌};
ghost use Rattle.numeric.specs.Round.{round_away, cast_u32, nearest_to};

use crate::inner::nearest_whole;

// The nearest whole number, halves away from zero, with x's sign.
pub fn round(x: f32) -> f32
    ensures { result ≡ round_away x }
{
    if x.is_nan() {
        return x;
    }
    let b = x.to_bits();
    let a = b % 0x8000_0000;
    // from 2^23 on every f32 is whole
    if a >= 0x4b00_0000 {
        return x;
    }
    let y = nearest_whole(a) as f32;
    if b >= 0x8000_0000 { -y } else { y }
}

// Rust's `x as u32`: without the fraction, to the nearest end of the range, and 0 for a NaN.
pub fn to_u32(x: f32) -> u32
    ensures { result ≡ cast_u32 x }
{
    if x >= 4294967296.0 {
        return u32::MAX;
    }
    if x > -1.0 {
        return std::num::truncating_f32_to_u64(x) as u32;
    }
    0
}

// Rust's `n as f32`: the f32 nearest to n, ties to even.
pub fn from_u32(n: u32) -> f32
    ensures { result ≡ nearest_to n }
{
    std::num::nearest_u32_to_f32(n)
}

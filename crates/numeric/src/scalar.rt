// Inverse, maximum, absolute value and sign.
ghost use Rattle.std.specs.Prelude.{◌≡◌};
ghost use Rattle.numeric.specs.Scalar.{inverse, maximum, magnitude, sign_of};

// 1 / e, and 0 for a zero.
pub fn inv_exact(e: f32) -> f32
    ensures { result ≡ inverse e }
{
    if e == 0.0 { 0.0 } else { 1.0 / e }
}

// The larger of a and b: the number if one side is a NaN, and +0 of two zeros, where the library's `max` may answer either.
pub fn max(a: f32, b: f32) -> f32
    ensures { result ≡ maximum a b }
{
    if a.is_nan() {
        return b;
    }
    if b.is_nan() {
        return a;
    }
    if a == 0.0 && b == 0.0 {
        return 0.0;
    }
    if a < b { b } else { a }
}

// x without its sign.
pub fn abs(x: f32) -> f32
    ensures { result ≡ magnitude x }
{
    if x < 0.0 {
        return -x;
    }
    if x == 0.0 { 0.0 } else { x }
}

// 1 with x's sign, also of a zero; a NaN answers itself.
pub fn signum(x: f32) -> f32
    ensures { result ≡ sign_of x }
{
    if x.is_nan() {
        return x;
    }
    if x.to_bits() >= 0x8000_0000 {
        -1.0
    } else {
        1.0
    }
}

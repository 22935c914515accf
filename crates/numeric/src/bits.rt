// The 32 bits of an f32, for whoever prints and reads floats.
ghost use Rattle.std.specs.Prelude.{◌≡◌, from_bits, to_bits};
ghost use Rattle.std.specs.Float.{binary32};

// The pattern of x. Every NaN has the pattern 7FC00000.
pub fn to_bits(x: f32) -> u32
    ensures { result ≡ to_bits binary32 x }
{
    if x.is_nan() {
        return 0x7fc0_0000;
    }
    x.to_bits()
}

// The f32 with the pattern b. Every NaN's pattern gives the one NaN.
pub fn from_bits(b: u32) -> f32
    ensures { result ≡ from_bits binary32 b }
{
    if b % 0x8000_0000 > 0x7f80_0000 {
        return 0.0 / 0.0;
    }
    f32::from_bits(b)
}

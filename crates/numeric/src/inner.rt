// What the floors above share of rounding. No host reaches this.
ghost use Rattle.std.specs.Prelude.{◌≡◌, ◌^◌, ◌<◌, ◌≤◌};
ghost use Rattle.numeric.specs.Bits.{pattern_units};
ghost use Rattle.numeric.specs.Round.{nearest_whole};

// The whole number nearest to the f32 with the pattern a, halves up; a is below the pattern of 2^23.
pub fn nearest_whole(a: u32) -> u32
    requires { a < 1258291200 }
    ensures { (result ≡ nearest_whole (pattern_units a) (2 ^ 149)) × (result ≤ 2 ^ 24) }
{
    let field = a / 0x80_0000;
    if field < 126 {
        return 0;
    }
    // twice the number, without its fraction
    let twice = (0x80_0000 + a % 0x80_0000) >> (149 - field);
    (twice + 1) / 2
}

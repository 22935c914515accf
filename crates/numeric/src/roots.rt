// The square root of an f32, from the bits.
ghost use Rattle.std.specs.Prelude.{◌≡◌, ◌+◌, ◌*◌, ◌^◌, ◌<◌, ◌≤◌, from_bits};
ghost use Rattle.std.specs.Float.{binary32};
ghost use Rattle.numeric.specs.Bits.{pattern_units};
ghost use Rattle.numeric.specs.Root.{units_root, root_of};

use crate::bits;

// The whole part of the root of n, by halving: the largest r with r * r <= n.
fn halved_root(n: u64) -> u64
    ensures { (result * result ≤ n) × (n < (result + 1) * (result + 1)) }
{
    let mut lo = 0;
    let mut hi = 0x1_0000_0000;
    while 1 < hi - lo {
        let mid = lo + (hi - lo) / 2;
        if mid * mid <= n {
            lo = mid;
        } else {
            hi = mid;
        }
    }
    lo
}

// The whole number nearest to the root of n, by halving.
fn halved_near(n: u64) -> u64
    requires { (2 ^ 46 ≤ n) × (n < 2 ^ 48) }
    ensures { (result * result < n + result) × (n ≤ result * result + result) }
{
    let r = halved_root(n);
    if r < n - r * r { r + 1 } else { r }
}

// The digits of the root of the normal f32 with the pattern b, one off at most, as those of a pattern: nothing rests on this guess but the time that it saves.
fn guessed_root(b: u32) -> u32 {
    // the number times a power of 4, from 1/2 to 2: its root has the same digits
    let c = b % 0x100_0000 + 0x3f00_0000;
    let x = f32::from_bits(c);
    // half the pattern halves the exponent: within one part in 25, and of 12 digits, so that its square is exact
    let a = f32::from_bits(c / 0x2000 * 0x1000 + 0x1fbc_0000);
    let q = a * a;
    // a step like Newton's, which takes the error to its fifth power where Newton's squares it
    let p = 4.0 * (x + q) * (a * (x - q));
    let r = 5.0 * q * (q + 2.0 * x) + x * x;
    bits::to_bits(a + p / r)
}

// r, if it is the whole number nearest to the root of n, and else that number by halving, which takes 32 turns.
fn tested_root(n: u64, r: u64) -> u64
    requires { (2 ^ 46 ≤ n) × (n < 2 ^ 48) × (r ≤ 2 ^ 24) }
    ensures { (result * result < n + result) × (n ≤ result * result + result) }
{
    let s = r * r;
    if s < n + r && n <= s + r {
        return r;
    }
    halved_near(n)
}

// The whole number nearest to the root of n: the guess's 24 digits where they are it, and else what is next to them on the root's side is tested.
fn near_root(n: u64, guess: u32) -> u64
    requires { (2 ^ 46 ≤ n) × (n < 2 ^ 48) }
    ensures { (result * result < n + result) × (n ≤ result * result + result) }
{
    let q = u64::from(guess % 0x80_0000 + 0x80_0000);
    let s = q * q;
    if s + q < n {
        return tested_root(n, q + 1);
    }
    if s < n + q {
        return q;
    }
    tested_root(n, q - 1)
}

// The pattern of the f32 nearest to the root of n * 4^k, in units of 2^-149; n has 47 or 48 digits, and its root 24.
fn leading_root(n: u64, k: u32, guess: u32) -> u32
    requires { (2 ^ 46 ≤ n) × (n < 2 ^ 48) × (k ≤ 201) }
    ensures { (from_bits binary32 result ≡ units_root (n * (2 ^ k * 2 ^ k))) × (result < 2139095040) }
{
    k * 0x80_0000 + (near_root(n, guess) as u32)
}

// The same of an n with fewer digits, which are made 47 or 48.
fn scaled_root(n: u64, k: u32) -> u32
    requires { (0 < n) × (n < 2 ^ 48) × (2 ^ 46 ≤ n * (2 ^ k * 2 ^ k)) × (k ≤ 201) }
    ensures { (from_bits binary32 result ≡ units_root (n * (2 ^ k * 2 ^ k))) × (result < 2139095040) }
{
    let mut m = n;
    let mut h = k;
    while m < 0x4000_0000_0000 {
        m *= 4;
        h -= 1;
    }
    // so small a number is rare, and gets no guess
    leading_root(m, h, 0)
}

// The pattern of the root of the f32 above zero whose pattern is b.
fn root_pattern(b: u32) -> u32
    requires { (0 < b) × (b < 2139095040) }
    ensures { (from_bits binary32 result ≡ units_root (pattern_units b * 2 ^ 149)) × (result < 2139095040) }
{
    let field = b / 0x80_0000;
    let digits = u64::from(b % 0x80_0000);
    if field == 0 {
        return scaled_root(digits * 2, 74);
    }
    // by 24 places, or by 23 under an odd exponent, so that what is left of it has a half
    leading_root(
        (digits + 0x80_0000) << (24 - field % 2),
        (field + 1) / 2 + 62,
        guessed_root(b),
    )
}

// The f32 nearest to the exact root of x; a NaN where x is one or below zero.
pub fn root(x: f32) -> f32
    ensures { result ≡ root_of x }
{
    if x.is_nan() {
        return x;
    }
    if x == 0.0 {
        return x;
    }
    if x < 0.0 {
        return 0.0 / 0.0;
    }
    let b = x.to_bits();
    // the infinity
    if b >= 0x7f80_0000 {
        return x;
    }
    f32::from_bits(root_pattern(b))
}

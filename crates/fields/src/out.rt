// Writes into a lent slice, from a place on. Each function answers the place after what it wrote;
// where that does not fit it writes nothing and answers the place it was given.
ghost use Rattle.std.specs.Prelude.{◌≡◌, ◌++◌, ◌∷◌, [], ◌+◌, ◌≤◌, ◌<◌, length, take, drop};
ghost use Rattle.fields.specs.Write.{glyph_of, digits_of, places_of, text_of, put_at, place_after};

// The last `digits` digits of n in upper case hexadecimal.
pub fn put_hex(out: &mut [u8], at: usize, n: u64, digits: usize) -> usize
    ensures out_after { out.new ≡ put_at out.old at (digits_of 16 digits n) }
    ensures value { result ≡ place_after out.old at (digits_of 16 digits n) }
{
    spell(out, at, digits, n, 16)
}

// n as a plain decimal.
#[tactic(auto, unfolding(crate::specs::Write::text_of))]
pub fn put_decimal(out: &mut [u8], at: usize, n: u64) -> usize
    ensures out_after { out.new ≡ put_at out.old at (text_of n) }
    ensures value { result ≡ place_after out.old at (text_of n) }
{
    spell(out, at, places(n), n, 10)
}

// One byte.
pub fn put_byte(out: &mut [u8], at: usize, b: u8) -> usize
    ensures out_after { out.new ≡ put_at out.old at (b ∷ []) }
    ensures value { result ≡ place_after out.old at (b ∷ []) }
{
    if at < out.len() {
        out[at] = b;
        return at + 1;
    }
    at
}

// Every byte of s.
pub fn put_bytes(out: &mut [u8], at: usize, s: &[u8]) -> usize
    ensures out_after { out.new ≡ put_at out.old at s.now }
    ensures value { result ≡ place_after out.old at s.now }
{
    if out.len() < at || out.len() - at < s.len() {
        return at;
    }
    copy(out, at, s);
    at + s.len()
}

// The bytes of s, from `at` on. One by one: `copy_from_slice` would have the archive ask its host for memmove.
fn copy(out: &mut [u8], at: usize, s: &[u8])
    requires { at + length s.now ≤ length out.old }
    ensures { out.new ≡ take at out.old ++ (s.now ++ drop (at + length s.now) out.old) }
{
    for i in 0..s.len() {
        out[at + i] = s[i];
    }
}

// The last `digits` digits of n in base.
fn spell(out: &mut [u8], at: usize, digits: usize, n: u64, base: u64) -> usize
    requires { (0 < base) × (base ≤ 16) }
    ensures out_after { out.new ≡ put_at out.old at (digits_of base digits n) }
    ensures value { result ≡ place_after out.old at (digits_of base digits n) }
{
    if out.len() < at || out.len() - at < digits {
        return at;
    }
    fill(&mut out[at..at + digits], n, base);
    at + digits
}

// The last digits of n in base, as many as out has room for. The lowest goes first, to the end.
fn fill(out: &mut [u8], n: u64, base: u64)
    requires { (0 < base) × (base ≤ 16) }
    ensures { out.new ≡ digits_of base (length out.old) n }
{
    let mut rest = n;
    for i in (0..out.len()).rev() {
        out[i] = glyph(rest % base);
        rest /= base;
    }
}

// How many decimal digits n has.
pub fn places(n: u64) -> usize
    ensures { result ≡ places_of n n }
{
    match n.checked_ilog10() {
        Some(k) => k as usize + 1,
        None => 1,
    }
}

#[tactic(auto, using(std::proofs::lemmas::Bool::Decides::nat_tests), unfolding(crate::specs::Write::glyph_of))]
fn glyph(d: u64) -> u8
    requires { d < 16 }
    ensures { result ≡ glyph_of d }
{
    if d < 10 {
        b'0' + d as u8
    } else {
        b'A' + (d - 10) as u8
    }
}

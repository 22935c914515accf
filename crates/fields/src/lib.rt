// Reads and writes the fields of lines: whole numbers in upper case hexadecimal with a
// fixed count of digits, and plain decimals. Every function takes any arguments and says exactly
// what it answers, by the definitions of `specs/`.
#![tactic(auto)]

pub mod lines;
pub mod out;

ghost use Rattle.std.specs.Prelude.{◌≡◌, ◌≤◌, ◌%◌, ◌^◌, ◌<◌, min, length, take, SomeIff};
ghost use Rattle.fields.specs.Read.{place_of, digit_of, number_of, hex_of, decimal_of, read_in, signed_of};

// The place of the first `byte` of s at or after `at` and before `end`, or `end`, or s's length
// where that is less. A line ends at the first line feed, a field at the first tab in its line. By
// a place of its own: of a slip in `position` that passes places over, no fact would tell.
pub fn find(s: &[u8], at: usize, end: usize, byte: u8) -> usize
    ensures value { result ≡ place_of byte at (take end s.now) }
    ensures lower_bound { (min at (min end (length s.now)) ≤ result) × (result ≤ min end (length s.now)) }
{
    let stop = end.min(s.len());
    let mut place = at;
    while place < stop {
        if s[place] == byte {
            return place;
        }
        place += 1;
    }
    stop
}

// The number that the bytes of s from `from` up to `to` spell as exactly `digits` digits, 1 to 16,
// in upper case hexadecimal.
pub fn hex(s: &[u8], from: usize, to: usize, digits: usize) -> Option<u64>
    ensures { result ≡ read_in (hex_of digits) from to s.now }
{
    let text = s.get(from..to)?;
    if digits == 0 || 16 < digits || text.len() != digits {
        return None;
    }
    value(text, 16)
}

// The number that the bytes of s from `from` up to `to` spell as a plain decimal: one digit or
// more, no zero in front of another, and below 2^64.
pub fn decimal(s: &[u8], from: usize, to: usize) -> Option<u64>
    ensures { result ≡ read_in decimal_of from to s.now }
{
    let text = s.get(from..to)?;
    if text.is_empty() || 1 < text.len() && text[0] == b'0' {
        return None;
    }
    value(text, 10)
}

// The low 32 bits of n.
pub fn low(n: u64) -> u32
    ensures { result ≡ n % 2 ^ 32 }
{
    (n % 0x1_0000_0000) as u32
}

// The number whose 32 bits, in two's complement, are those of `bits`.
#[tactic(auto, using(std::proofs::lemmas::Int::ints, std::proofs::lemmas::Bool::Decides::nat_tests), unfolding(crate::specs::Read::signed_of))]
pub fn signed(bits: u32) -> i32
    ensures { result ≡ signed_of bits }
{
    bits.cast_signed()
}

// The number of the bytes of s, in upper case digits of `base`, where each byte is one and the
// number is below 2^64.
fn value(s: &[u8], base: u64) -> Option<u64>
    requires { base ≤ 16 }
    ensures { result ≡ number_of base s.now }
{
    let mut n: u64 = 0;
    for b in s {
        let d = digit(*b, base)?;
        n = n.checked_mul(base)?.checked_add(d)?;
    }
    Some(n)
}

// The value of a byte as a digit of `base`, which is at most 16.
#[tactic(auto, using(std::proofs::lemmas::Bool::Decides::nat_tests), unfolding(crate::specs::Read::digit_of))]
fn digit(b: u8, base: u64) -> Option<u64>
    requires { base ≤ 16 }
    ensures { SomeIff result (digit_of b < base) (digit_of b) }
{
    let d = match b {
        b'0'..=b'9' => b - b'0',
        b'A'..=b'F' => b - b'A' + 10,
        _ => return None,
    };
    (u64::from(d) < base).then_some(u64::from(d))
}

// A line by the kinds of its fields: read, and printed. The kinds are letters, `f` for a float, by its bits, and `d` for a plain decimal.
// Letters and no enum of kinds: `put_line` is public and takes any byte for a kind, every byte but `f` as a plain decimal.
ghost use Rattle.std.specs.Prelude.{◌≡◌, ◌∷◌, ◌+◌, ◌≤◌, length, get_or, leb};
ghost use Rattle.fields.specs.Read.{read_in};
ghost use Rattle.fields.specs.Write.{put_at, place_after};
ghost use Rattle.listing.specs.Lines.{tab, field_text, fields_text, ended_text, field_of, line_of};
ghost use Rattle.listing.specs.Steps.{step_of};

use fields::lines::begins;
use fields::out::{places, put_byte, put_bytes, put_decimal, put_hex};
use fields::{decimal, find, hex};

// The values of the line that text is, without its line feed, if it begins with the letter and has just these fields.
pub(crate) fn read_line<const N: usize>(
    text: &[u8],
    letter: u8,
    kinds: &[u8; N],
) -> Option<[u64; N]>
    ensures { result ≡ line_of letter kinds.now text.now }
{
    if !begins(text, 0, text.len(), letter) {
        return None;
    }
    let mut values = [0u64; N];
    let mut at = 1;
    for (k, &kind) in kinds.iter().enumerate() {
        let (v, next) = read_field(text, at, kind)?;
        values[k] = v;
        at = next;
    }
    (text.len() <= at).then_some(values)
}

// The value of the field behind the tab at `at`, up to the next one or the end, and where it ends.
fn read_field(text: &[u8], at: usize, kind: u8) -> Option<(u64, usize)>
    ensures { result ≡ step_of kind at text.now }
{
    if text.len() <= at || text[at] != b'\t' {
        return None;
    }
    let end = find(text, at + 1, text.len(), b'\t');
    let v = number_in(text, at + 1, end, kind)?;
    Some((v, end))
}

// The number from one place up to another.
#[tactic(auto, using(std::proofs::lemmas::Bool::Decides::nat_tests), unfolding(crate::specs::Lines::field_of, fields::specs::Read::read_in))]
fn number_in(text: &[u8], from: usize, to: usize, kind: u8) -> Option<u64>
    ensures { result ≡ read_in (field_of kind) from to text.now }
{
    if kind == b'f' {
        return hex(text, from, to, 8);
    }
    decimal(text, from, to)
}

// Prints a line: its head, a field of each kind for each value, and a line feed; a missing value counts as 0. Answers the place after it; where it does not fit, nothing is
// written, and the place is the one that was given.
pub fn put_line(out: &mut [u8], at: usize, head: &[u8], kinds: &[u8], values: &[u64]) -> usize
    ensures { (result ≡ place_after out.old at (ended_text head.now kinds.now values.now))
        × (out.new ≡ put_at out.old at (ended_text head.now kinds.now values.now)) }
{
    if !has_room(out.len(), at, head.len(), kinds, values) {
        return at;
    }
    let behind_head = put_bytes(out, at, head);
    let behind_fields = put_fields(out, behind_head, kinds, values);
    put_byte(out, behind_fields, b'\n')
}

// Whether so long a line fits from `at` on; no sum wraps.
fn has_room(len: usize, at: usize, head: usize, kinds: &[u8], values: &[u64]) -> bool
    ensures { result ≡ leb (at + (head + (length (fields_text kinds.now values.now) + 1))) len }
{
    if len < at || len - at <= head {
        return false;
    }
    fit(len - at - head - 1, kinds, values)
}

// Whether the fields take no more than so many bytes.
fn fit(room: usize, kinds: &[u8], values: &[u64]) -> bool
    ensures { result ≡ leb (length (fields_text kinds.now values.now)) room }
{
    let mut left = room;
    for (k, &kind) in kinds.iter().enumerate() {
        let need = field_length(kind, value_at(values, k));
        if left <= need {
            return false;
        }
        left -= need + 1;
    }
    true
}

// Prints the fields, for which there is room.
fn put_fields(out: &mut [u8], at: usize, kinds: &[u8], values: &[u64]) -> usize
    requires { at + length (fields_text kinds.now values.now) ≤ length out.old }
    ensures { (result ≡ at + length (fields_text kinds.now values.now))
        × (out.new ≡ put_at out.old at (fields_text kinds.now values.now)) }
{
    let mut place = at;
    for (k, &kind) in kinds.iter().enumerate() {
        place = put_field(out, place, kind, value_at(values, k));
    }
    place
}

// Prints a tab and the field behind it, for which there is room.
fn put_field(out: &mut [u8], at: usize, kind: u8, v: u64) -> usize
    requires { at + (length (field_text kind v) + 1) ≤ length out.old }
    ensures { (result ≡ at + (length (field_text kind v) + 1)) × (out.new ≡ put_at out.old at (tab ∷ field_text kind v)) }
{
    let behind_tab = put_byte(out, at, b'\t');
    if kind == b'f' {
        return put_hex(out, behind_tab, v, 8);
    }
    put_decimal(out, behind_tab, v)
}

#[tactic(auto, using(std::proofs::lemmas::Bool::Decides::nat_tests, fields::proofs::Writing::length_digits), unfolding(crate::specs::Lines::field_text, fields::specs::Write::text_of))]
fn field_length(kind: u8, v: u64) -> usize
    ensures { result ≡ length (field_text kind v) }
{
    if kind == b'f' {
        return 8;
    }
    places(v)
}

fn value_at(values: &[u64], k: usize) -> u64
    ensures { result ≡ get_or values.now k 0 }
{
    values.get(k).copied().unwrap_or(0)
}

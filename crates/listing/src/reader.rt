// The reader: a state that is fed the text in pieces, and keeps 64 regions and 256 particles of it.
ghost use Rattle.std.specs.Prelude.{◌≡◌, Some, ◌-◌, ◌*◌, ◌^◌, ◌<◌, length, take};
ghost use Rattle.listing.specs.Feeding.{Memory, State, state, first, pushed, spoiled, advanced, one_more, settings_taken, region_taken, with_region, particle_taken, with_particle, line_ended, fed_byte, fed};
ghost use Rattle.listing.specs.Held.{held, left};

use crate::records::{Region, Settings, particle_line, region_line, settings_line};
use grid::inner::RANGE_WORDS;
use numeric::dim2::Vector;
use particles::inner::write_particle;
use particles::particle::{PARTICLE_FLOATS, PARTICLE_WORDS, Particle};

pub const LINE_BYTES: usize = 256;

pub const KEPT_REGIONS: usize = 64;

pub const KEPT_PARTICLES: usize = 256;

// How long the memory of the records is.
pub(crate) const KEPT_RANGE_WORDS: usize = KEPT_REGIONS * RANGE_WORDS;

pub(crate) const KEPT_FLOATS: usize = KEPT_PARTICLES * PARTICLE_FLOATS;

pub(crate) const KEPT_WORDS: usize = KEPT_PARTICLES * PARTICLE_WORDS;

// How many bytes of the line that has not ended are kept, and its index; whether every line before it could be read; what they say. The records themselves are in lent memory.
// A flag, and an index that is 0 at first, and no enum of states: the fields are public, and those who hold a reader may read and make them.
#[derive(Clone, Copy)]
pub struct Reader {
    pub have: usize,
    pub index: u64,
    pub readable: bool,
    pub settings: Settings,
    pub regions: usize,
    pub particles: usize,
}

// The memory that a reader is lent.
#[derive(Drop)]
struct Lent<'a> {
    line: &'a mut [u8; LINE_BYTES],
    ids: &'a mut [u64; KEPT_REGIONS],
    ranges: &'a mut [u64; KEPT_RANGE_WORDS],
    pf: &'a mut [f32; KEPT_FLOATS],
    pw: &'a mut [u32; KEPT_WORDS],
}

// Nothing is read yet.
pub fn start() -> Reader
    ensures { result ≡ first }
{
    Reader {
        have: 0,
        index: 0,
        readable: true,
        settings: Settings {
            cell_width: 0.0,
            dt: 0.0,
            gravity: Vector { x: 0.0, y: 0.0 },
        },
        regions: 0,
        particles: 0,
    }
}

// The next piece of the text.
pub fn feed(
    reader: Reader,
    text: &[u8],
    line: &mut [u8; 256],
    ids: &mut [u64; 64],
    ranges: &mut [u64; 128],
    pf: &mut [f32; 6656],
    pw: &mut [u32; 1024],
) -> Reader
    ensures { state result line.new ids.new ranges.new pf.new pw.new
        ≡ fed (state reader line.old ids.old ranges.old pf.old pw.old) text.now }
{
    let mut q = reader;
    for &b in text {
        let m = Lent {
            line,
            ids,
            ranges,
            pf,
            pw,
        };
        q = feed_byte(q, b, m);
    }
    q
}

// A line cannot be read, and so the text cannot: what is kept of it, and the line's index, stay.
fn broken(reader: Reader) -> Reader
    ensures { (m : Memory) → record { reader = result; memory = m } ≡ spoiled (record { reader = reader; memory = m }) }
{
    Reader {
        readable: false,
        ..reader
    }
}

fn feed_byte(reader: Reader, b: u8, m: Lent) -> Reader
    ensures { record { reader = result; memory = left m.exit } ≡ fed_byte (record { reader = reader; memory = held m.entry }) b }
{
    if !reader.readable {
        return reader;
    }
    if b == b'\n' {
        return end_line(reader, m);
    }
    push(reader, b, m)
}

// A byte more of the line; beyond those that are kept no line can be read.
#[tactic(auto, using(std::proofs::lemmas::Bool::Decides::nat_tests), unfolding(crate::specs::Feeding::pushed))]
fn push(reader: Reader, b: u8, m: Lent) -> Reader
    ensures { record { reader = result; memory = left m.exit } ≡ pushed (record { reader = reader; memory = held m.entry }) b }
{
    if LINE_BYTES <= reader.have {
        return reader;
    }
    m.line[reader.have] = b;
    Reader {
        have: reader.have + 1,
        ..reader
    }
}

// The line has ended: the first is a `w` line, a later one an `r` or a `p` line.
fn end_line(reader: Reader, m: Lent) -> Reader
    ensures { record { reader = result; memory = left m.exit } ≡ line_ended (record { reader = reader; memory = held m.entry }) }
{
    let text = front(m.line, reader.have);
    if reader.index == 0 {
        return take_settings(reader, settings_line(text));
    }
    if reader.particles == 0
        && let Some(region) = region_line(text)
    {
        return take_region(reader, region, m);
    }
    take_particle(reader, particle_line(text), m)
}

// The first n entries, or all there are.
fn front(s: &[u8], n: usize) -> &[u8]
    ensures { result.now ≡ take n s.now }
{
    s.get(..n).unwrap_or(s)
}

fn take_settings(reader: Reader, line: Option<Settings>) -> Reader
    ensures { (m : Memory) → record { reader = result; memory = m } ≡ settings_taken line (record { reader = reader; memory = m }) }
{
    match line {
        Some(settings) => advance(Reader { settings, ..reader }),
        None => broken(reader),
    }
}

// A region in its place, where one is left, and on to the next line.
fn take_region(reader: Reader, v: Region, m: Lent) -> Reader
    ensures { (other : State) → record { reader = result; memory = left m.exit } ≡ region_taken (Some v) (record { reader = reader; memory = held m.entry }) other }
{
    put_region(reader.regions, v, m);
    advance(Reader {
        regions: one_more(KEPT_REGIONS, reader.regions),
        ..reader
    })
}

#[tactic(auto, using(std::proofs::lemmas::Bool::Decides::nat_tests), unfolding(crate::specs::Feeding::with_region))]
fn put_region(n: usize, v: Region, m: Lent)
    ensures { left m.exit ≡ with_region (held m.entry) n v }
{
    if KEPT_REGIONS <= n {
        return;
    }
    m.ids[n] = v.id;
    m.ranges[n * RANGE_WORDS] = v.start;
    m.ranges[n * RANGE_WORDS + 1] = v.count;
}

// A particle in its place, where one is left, and on to the next line; or the line cannot be read.
fn take_particle(reader: Reader, line: Option<Particle>, m: Lent) -> Reader
    ensures { record { reader = result; memory = left m.exit } ≡ particle_taken line (record { reader = reader; memory = held m.entry }) }
{
    let Some(v) = line else {
        return broken(reader);
    };
    put_particle(reader.particles, v, m);
    advance(Reader {
        particles: one_more(KEPT_PARTICLES, reader.particles),
        ..reader
    })
}

#[tactic(auto, using(std::proofs::lemmas::Bool::Decides::nat_tests), unfolding(crate::specs::Feeding::with_particle))]
fn put_particle(n: usize, v: Particle, m: Lent)
    ensures { left m.exit ≡ with_particle (held m.entry) n v }
{
    if KEPT_PARTICLES <= n {
        return;
    }
    let Lent { pf, pw, .. } = m;
    write_particle(pf, pw, n, v);
}

// On to the next line, whose index is one more, as far as a u64 tells: no text has so many lines.
fn advance(reader: Reader) -> Reader
    ensures { result ≡ advanced reader reader.settings reader.regions reader.particles }
{
    Reader {
        have: 0,
        index: reader.index.saturating_add(1),
        ..reader
    }
}

// One record more, of which so many are kept; beyond them it is only told that there are more.
fn one_more(kept: usize, n: usize) -> usize
    requires { kept < 2 ^ 64 - 1 }
    ensures { result ≡ one_more kept n }
{
    n.min(kept) + 1
}

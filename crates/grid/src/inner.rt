// What the stages share: reading and writing nodes, and the checks that do not look at particles. No host reaches these; some demand of their caller what its own check has
// shown.
ghost use Rattle.std.specs.Prelude.{◌≡◌, [], ◌∷◌, ◌+◌, ◌*◌, ◌<◌, ◌≤◌, eqb, length};
ghost use Rattle.laws.specs.Store.{store};
ghost use Rattle.grid.specs.Answers.{refuse, unless};
ghost use Rattle.grid.specs.Nodes.{floats_per_node, words_per_node, node_at, put_node, empty_node};
ghost use Rattle.grid.specs.Table.{all, matches, node_lengths, limits, finite, good_width, good_step, called, flags, numbers, bad_region, region_ids, words_per_range, start_of, count_of, cover};

use crate::grid_node::{CELLS_OF_REGION, GridNode, NODE_FLOATS, NODE_WORDS};
use crate::{Answer, Refusal, Rule};
use numeric::dim2::Vector;

pub const MAX_REGIONS: usize = 512;

pub const MAX_PARTICLES: usize = 65536;

pub const MAX_COLLIDERS: usize = 16;

// A region's start and count.
pub const RANGE_WORDS: usize = 2;

// Where a region's particles begin, and how many they are.
pub fn start_of(ranges: &[u64], place: usize) -> usize
    requires { place * words_per_range + words_per_range ≤ length ranges.now }
    ensures { result ≡ start_of ranges.now place }
{
    ranges[place * RANGE_WORDS] as usize
}

pub fn count_of(ranges: &[u64], place: usize) -> usize
    requires { place * words_per_range + words_per_range ≤ length ranges.now }
    ensures { result ≡ count_of ranges.now place }
{
    ranges[place * RANGE_WORDS + 1] as usize
}

// A node that nothing has reached.
pub fn empty() -> GridNode
    ensures { result ≡ empty_node }
{
    GridNode {
        mass: 0.0,
        momentum: Vector { x: 0.0, y: 0.0 },
        velocity: Vector { x: 0.0, y: 0.0 },
        psi_momentum: 0.0,
        psi_mass: 0.0,
        boundary: 0,
    }
}

// The node at place k.
pub fn read_node(nf: &[f32], nw: &[u32], k: usize) -> GridNode
    requires { (k * floats_per_node + floats_per_node ≤ length nf.now) × (k * words_per_node + words_per_node ≤ length nw.now) }
    ensures { result ≡ node_at (store nf.now nw.now) k }
{
    let at = k * NODE_FLOATS;
    GridNode {
        mass: nf[at],
        momentum: Vector {
            x: nf[at + 1],
            y: nf[at + 2],
        },
        velocity: Vector {
            x: nf[at + 3],
            y: nf[at + 4],
        },
        psi_momentum: nf[at + 5],
        psi_mass: nf[at + 6],
        boundary: nw[k * NODE_WORDS],
    }
}

pub fn write_node(nf: &mut [f32], nw: &mut [u32], k: usize, n: GridNode)
    requires { (k * floats_per_node + floats_per_node ≤ length nf.old) × (k * words_per_node + words_per_node ≤ length nw.old) }
    ensures { store nf.new nw.new ≡ put_node (store nf.old nw.old) k n }
{
    let at = k * NODE_FLOATS;
    nf[at] = n.mass;
    nf[at + 1] = n.momentum.x;
    nf[at + 2] = n.momentum.y;
    nf[at + 3] = n.velocity.x;
    nf[at + 4] = n.velocity.y;
    nf[at + 5] = n.psi_momentum;
    nf[at + 6] = n.psi_mass;
    nw[k * NODE_WORDS] = n.boundary;
}

// Whether `len` is `count` times `each`; no product wraps.
pub fn fits(len: usize, count: usize, each: usize) -> bool
    ensures { result ≡ eqb len (count * each) }
{
    if each == 0 {
        return len == 0;
    }
    if len % each != 0 {
        return false;
    }
    len / each == count
}

// Whether slices of these lengths hold the nodes of so many regions.
pub fn holds_nodes(regions: usize, nf: usize, nw: usize) -> bool
    ensures { result ≡ matches (node_lengths regions nf nw) }
{
    fits(nf, regions, CELLS_OF_REGION * NODE_FLOATS)
        & fits(nw, regions, CELLS_OF_REGION * NODE_WORDS)
}

// Counts over their limits; a call that has none of a kind has 0 of it.
pub fn check_limits(regions: usize, particles: usize, colliders: usize) -> Answer
    ensures { result ≡ limits regions particles colliders }
{
    let is_within = (regions <= MAX_REGIONS)
        & ((particles <= MAX_PARTICLES) & (colliders <= MAX_COLLIDERS));
    refuse(!is_within, Rule::Limit, 0)
}

pub fn is_finite(x: f32) -> bool
    ensures { result ≡ finite x }
{
    let top = 1.0 / 0.0;
    (x < top) & (-top < x)
}

// Whether a cell width is one: from 2^-20 to 2^20.
pub fn is_width(h: f32) -> bool
    ensures { result ≡ good_width h }
{
    (0.00000095367431640625 <= h) & (h <= 1048576.0)
}

// Whether a substep's length is one: finite and above 0.
pub fn is_step(dt: f32) -> bool
    ensures { result ≡ good_step dt }
{
    is_finite(dt) & (0.0 < dt)
}

// Whether each part of a vector is finite.
pub fn is_finite_vector(v: Vector) -> bool
    ensures { result ≡ all finite (v.x ∷ v.y ∷ []) }
{
    is_finite(v.x) & is_finite(v.y)
}

// Refused by the rule at the index, where its condition holds.
pub fn refuse(holds: bool, rule: Rule, index: usize) -> Answer
    ensures { result ≡ refuse holds rule index }
{
    if holds {
        return Err(Refusal { rule, index });
    }
    Ok(())
}

// The first of two answers that refuses.
pub fn first_refusal(a: Answer, b: Answer) -> Answer
    ensures { result ≡ unless a b }
{
    a?;
    b
}

// Numbers 1 to 3 and what is found of a call's own settings in 4, in this order.
pub fn check_call(lengths: bool, limited: Answer, settings: bool, own: Answer) -> Answer
    ensures { result ≡ called lengths limited settings own }
{
    first_refusal(
        refuse(!lengths, Rule::Length, 0),
        first_refusal(
            limited,
            first_refusal(refuse(!settings, Rule::Setting, 0), own),
        ),
    )
}

// The first of words, one a record, that is no flag.
pub fn check_flags(words: &[u32]) -> Answer
    ensures { result ≡ flags words.now }
{
    for (k, word) in words.iter().enumerate() {
        if 1 < *word {
            return Err(Refusal {
                rule: Rule::Code,
                index: k,
            });
        }
    }
    Ok(())
}

// The first record, of `each` floats, with one that is not finite.
pub fn check_numbers(floats: &[f32], each: usize) -> Answer
    requires { 0 < each }
    ensures { result ≡ numbers each floats.now }
{
    for (k, float) in floats.iter().enumerate() {
        if !is_finite(*float) {
            return Err(Refusal {
                rule: Rule::NotFinite,
                index: k / each,
            });
        }
    }
    Ok(())
}

// The first region whose id has low bits set or does not ascend.
pub fn check_regions(ids: &[u64]) -> Answer
    ensures { result ≡ region_ids ids.now }
{
    for place in 0..ids.len() {
        if is_bad_region(ids, place) {
            return Err(Refusal {
                rule: Rule::RegionIds,
                index: place,
            });
        }
    }
    Ok(())
}

fn is_bad_region(ids: &[u64], k: usize) -> bool
    requires { k + 1 ≤ length ids.now }
    ensures { result ≡ bad_region ids.now k }
{
    let id = ids[k];
    if packing::region_of(id) != id {
        return true;
    }
    if k == 0 {
        return false;
    }
    !(ids[k - 1] < id)
}

// The first region whose particles do not begin where those before it end, or pass the last one; with particles left over, the number of regions.
pub fn check_cover(regions: usize, ranges: &[u64], particles: u64) -> Answer
    requires { regions * words_per_range ≤ length ranges.now }
    ensures { result ≡ cover regions ranges.now particles }
{
    let mut next = 0;
    for r in 0..regions {
        if ranges[r * RANGE_WORDS] != next {
            return Err(Refusal {
                rule: Rule::Cover,
                index: r,
            });
        }
        if particles - next < ranges[r * RANGE_WORDS + 1] {
            return Err(Refusal {
                rule: Rule::Cover,
                index: r,
            });
        }
        next += ranges[r * RANGE_WORDS + 1];
    }
    if next != particles {
        return Err(Refusal {
            rule: Rule::Cover,
            index: regions,
        });
    }
    Ok(())
}

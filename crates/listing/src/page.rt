// What is printed at the end of a text.
ghost use Rattle.std.specs.Prelude.{◌≡◌, false, [], ◌+◌, ◌*◌, ◌^◌, ◌≤◌, ◌<◌, length, take};
ghost use Rattle.std.specs.Float.{binary32};
ghost use Rattle.std.specs.Float.Ieee.{to_bits};
ghost use Rattle.fields.specs.Write.{put_at};
ghost use Rattle.laws.specs.Store.{store};
ghost use Rattle.grid.specs.Answers.{refused};
ghost use Rattle.grid.specs.Nodes.{floats_per_node, words_per_node, region_cells};
ghost use Rattle.grid.specs.Table.{words_per_range};
ghost use Rattle.particles.specs.Particles.{floats_per_particle, words_per_particle};
ghost use Rattle.listing.specs.Lines.{ended_text};
ghost use Rattle.listing.specs.Bench.{node_head, node_kinds, node_values, nodes_text, shown, listed, no_text, blank, bench_check, bench_nodes, called, kept_regions, kept_particles, within_limits};
ghost use Rattle.listing.specs.Feeding.{state, whole, printed};
ghost use Rattle.listing.specs.Steps.{node_bytes, page_bytes, added_text, Printed, Grown};

use crate::lines::put_line;
use crate::reader::{KEPT_PARTICLES, KEPT_REGIONS, Reader};
use crate::records::Settings;
use grid::grid_node::{CELLS_OF_REGION, GridNode, NODE_FLOATS, NODE_WORDS};
use grid::inner::{RANGE_WORDS, read_node};
use grid::{Answer, clear};
use numeric::to_bits;
use packing::dim2::unpack;
use packing::{Plane, Space};
use particles::particle::{PARTICLE_FLOATS, PARTICLE_WORDS};
use scatter::particle_to_grid::particle_to_grid_scatter;

// Room for a line of each node of 64 regions and one more.
pub const PAGE_BYTES: usize = 92160;

// How long the nodes of 64 regions are.
const KEPT_NODE_FLOATS: usize = KEPT_REGIONS * CELLS_OF_REGION * NODE_FLOATS;

const KEPT_NODE_WORDS: usize = KEPT_REGIONS * CELLS_OF_REGION * NODE_WORDS;

// The numbers by which a listing is refused before any call. Constants: 11 is no rule of a call, and `LIMIT` reads better than `u64::from(u32::from(Rule::Limit))`.
const LIMIT: u64 = 2;

const UNREADABLE: u64 = 11;

// What a call is given: of lent memory just the records, of at most 64 regions.
#[derive(Clone, Copy)]
struct Given<'a> {
    settings: Settings,
    ids: &'a [u64],
    ranges: &'a [u64],
    particles: usize,
    pf: &'a [f32],
    pw: &'a [u32],
    ghost few: { length ids.now ≤ kept_regions },
}

// The nodes of at most 64 regions, and whose they are.
#[derive(Clone, Copy)]
struct Nodes<'a> {
    ids: &'a [u64],
    nf: &'a [f32],
    nw: &'a [u32],
    ghost few: { length ids.now ≤ kept_regions },
    ghost floats: { length nf.now ≡ length ids.now * (region_cells * floats_per_node) },
    ghost words: { length nw.now ≡ length ids.now * (region_cells * words_per_node) },
}

// Where printing has come to: a place of the page, and how many nodes are printed.
#[derive(Clone, Copy)]
struct Place {
    at: usize,
    nodes: usize,
}

// Prints the answer at the front of the page, and says how long it is.
pub fn finish(
    reader: Reader,
    ids: &[u64; 64],
    ranges: &[u64; 128],
    pf: &[f32; 6656],
    pw: &[u32; 1024],
    page: &mut [u8; PAGE_BYTES],
) -> usize
    ensures { (result ≡ length (printed (state reader [] ids.now ranges.now pf.now pw.now)))
        × (page.new ≡ put_at page.old 0 (printed (state reader [] ids.now ranges.now pf.now pw.now))) × (result ≤ page_bytes) }
{
    if !is_whole(reader) {
        return put_refusal(page, UNREADABLE, reader.index);
    }
    if !is_within(reader) {
        return put_refusal(page, LIMIT, 0);
    }
    let given = Given {
        settings: reader.settings,
        ids: &ids[..reader.regions],
        ranges: &ranges[..reader.regions * RANGE_WORDS],
        particles: reader.particles,
        pf: &pf[..reader.particles * PARTICLE_FLOATS],
        pw: &pw[..reader.particles * PARTICLE_WORDS],
    };
    call(given, page)
}

// Whether every line could be read, the last one has ended, and there was one.
fn is_whole(reader: Reader) -> bool
    ensures { result ≡ whole reader }
{
    reader.readable && reader.have == 0 && reader.index != 0
}

fn is_within(reader: Reader) -> bool
    ensures { result ≡ within_limits reader.regions reader.particles }
{
    reader.regions <= KEPT_REGIONS && reader.particles <= KEPT_PARTICLES
}

// Clears, scatters and prints.
fn call(given: Given, page: &mut [u8; PAGE_BYTES]) -> usize
    ensures { let g = given.entry in (result ≡ length (called g.settings (length g.ids.now) g.ids.now g.ranges.now g.particles (store g.pf.now g.pw.now)))
        × (page.new ≡ put_at page.old 0 (called g.settings (length g.ids.now) g.ids.now g.ranges.now g.particles (store g.pf.now g.pw.now))) × (result ≤ page_bytes) }
{
    let mut nf = [0.0f32; KEPT_NODE_FLOATS];
    let mut nw = [0u32; KEPT_NODE_WORDS];
    let floats = given.ids.len() * (CELLS_OF_REGION * NODE_FLOATS);
    let words = given.ids.len() * (CELLS_OF_REGION * NODE_WORDS);
    scatter_and_print(given, &mut nf[..floats], &mut nw[..words], page)
}

// The same of blank nodes.
fn scatter_and_print(
    given: Given,
    nf: &mut [f32],
    nw: &mut [u32],
    page: &mut [u8; PAGE_BYTES],
) -> usize
    requires { store nf.old nw.old ≡ blank (length given.ids.now) }
    ensures { let g = given.entry in (result ≡ length (called g.settings (length g.ids.now) g.ids.now g.ranges.now g.particles (store g.pf.now g.pw.now)))
        × (page.new ≡ put_at page.old 0 (called g.settings (length g.ids.now) g.ids.now g.ranges.now g.particles (store g.pf.now g.pw.now))) × (result ≤ page_bytes) }
{
    match clear_and_scatter(given, nf, nw) {
        Ok(()) => {
            let nodes = Nodes {
                ids: given.ids,
                nf,
                nw,
            };
            put_listed(page, nodes)
        }
        Err(e) => put_refusal(page, u64::from(u32::from(e.rule)), e.index as u64),
    }
}

// Clears the nodes, and scatters onto them. What clear is refused for a scatter is refused for too, at the latest by the same number, so that the scatter's answer is the first in the table's order.
fn clear_and_scatter(given: Given, nf: &mut [f32], nw: &mut [u32]) -> Answer
    requires { store nf.old nw.old ≡ blank (length given.ids.now) }
    ensures { let g = given.entry in (result ≡ bench_check g.settings (length g.ids.now) g.ids.now g.ranges.now g.particles (store g.pf.now g.pw.now))
        × (refused result ≡ false → store nf.new nw.new ≡ bench_nodes g.settings (length g.ids.now) g.ids.now g.ranges.now g.particles (store g.pf.now g.pw.now)) }
{
    let _ = clear(given.ids.len(), given.ids, nf, nw);
    particle_to_grid_scatter(
        given.settings.cell_width,
        given.settings.dt,
        given.settings.gravity,
        given.ids.len(),
        given.ids,
        given.ranges,
        given.particles,
        given.pf,
        given.pw,
        nf,
        nw,
    )
}

// `no`, number, index.
fn put_refusal(page: &mut [u8; PAGE_BYTES], number: u64, index: u64) -> usize
    ensures { (result ≡ length (no_text number index)) × (page.new ≡ put_at page.old 0 (no_text number index)) × (result ≤ page_bytes) }
{
    let values = [number, index];
    put_line(page, 0, b"no", b"dd", &values)
}

// A line for each node whose mass is not zero, and how many they are.
fn put_listed(page: &mut [u8; PAGE_BYTES], nodes: Nodes) -> usize
    ensures { let n = nodes.entry in (result ≡ length (listed n.ids.now (length n.ids.now * region_cells) (store n.nf.now n.nw.now)))
        × (page.new ≡ put_at page.old 0 (listed n.ids.now (length n.ids.now * region_cells) (store n.nf.now n.nw.now))) × (result ≤ page_bytes) }
{
    let p = put_nodes(page, nodes);
    let values = [p.nodes as u64];
    put_line(page, p.at, b"ok", b"d", &values)
}

fn put_nodes(page: &mut [u8; PAGE_BYTES], nodes: Nodes) -> Place
    ensures { let n = nodes.entry in Printed n.ids.now (store n.nf.now n.nw.now) (length n.ids.now * region_cells) result
        × (page.new ≡ put_at page.old 0 (nodes_text n.ids.now (store n.nf.now n.nw.now) (shown (store n.nf.now n.nw.now) (length n.ids.now * region_cells)))) }
{
    let mut p = Place { at: 0, nodes: 0 };
    for k in 0..nodes.ids.len() * CELLS_OF_REGION {
        p = put_shown(page, p, nodes, k);
    }
    p
}

// The line of a node, if its mass is not zero.
fn put_shown(page: &mut [u8; PAGE_BYTES], p: Place, nodes: Nodes, k: usize) -> Place
    requires { (k < length nodes.ids.now * region_cells) × (p.at + node_bytes ≤ page_bytes) × (p.nodes ≤ k) }
    ensures { let n = nodes.entry in Grown n.ids.now (store n.nf.now n.nw.now) k p result
        × (page.new ≡ put_at page.old p.at (added_text n.ids.now (store n.nf.now n.nw.now) k)) }
{
    let n = read_node(nodes.nf, nodes.nw, k);
    if n.mass != 0.0 {
        return Place {
            at: put_node(page, p.at, nodes.ids, k, n),
            nodes: p.nodes + 1,
        };
    }
    p
}

// `n`: the cell's x and y, mass, momentum, velocity.
fn put_node(page: &mut [u8; PAGE_BYTES], at: usize, ids: &[u64], k: usize, n: GridNode) -> usize
    requires { (k < length ids.now * region_cells) × (at + node_bytes ≤ page_bytes) }
    ensures { (result ≡ at + length (ended_text node_head node_kinds (node_values ids.now k n))) × (length (ended_text node_head node_kinds (node_values ids.now k n)) ≤ node_bytes)
        × (page.new ≡ put_at page.old at (ended_text node_head node_kinds (node_values ids.now k n))) }
{
    let region = k / CELLS_OF_REGION;
    let cell = unpack(Plane::cell_of_region(ids[region], (k % CELLS_OF_REGION) as u64));
    let values = [
        cell.x as u64,
        cell.y as u64,
        bits(n.mass),
        bits(n.momentum.x),
        bits(n.momentum.y),
        bits(n.velocity.x),
        bits(n.velocity.y),
    ];
    put_line(page, at, b"n", b"ddfffff", &values)
}

fn bits(x: f32) -> u64
    ensures { (result ≡ to_bits binary32 x) × (result < 2 ^ 32) }
{
    u64::from(to_bits(x))
}

// The numbers of the table that look at particles, and those of a call whose particles stand in listed regions.
ghost use Rattle.std.specs.Prelude.{◌≡◌, true, not, [], ◌∷◌, ℕ, ◌+◌, ◌*◌, ◌≤◌, ◌<◌, length, get_or};
ghost use Rattle.laws.specs.Store.{store};
ghost use Rattle.packing.specs.Ids.{dim2, region};
ghost use Rattle.cells.specs.Cells.{in_range};
ghost use Rattle.grid.specs.Table.{all, matches, limits, finite, called, Regions, words_per_range, start_of, count_of, Covers};
ghost use Rattle.grid.specs.Answers.{refuse, done};
ghost use Rattle.grid.specs.declared.Rule.TheVariants.{Unlisted};
ghost use Rattle.particles.specs.Particles.{floats_per_particle, words_per_particle, particle_at};
ghost use Rattle.particles.specs.Blocks.{block_cells, corner_of, AllThere, Stands};
ghost use Rattle.particles.specs.Table.{particle_lengths, bad_flag, not_finite, on_axis, off_grid, out_of_region, listed, unlisted, judged, first_particle, out_of_regions, placed, checked, stage_lengths, stage_check, OnGrid, AllPass};

use crate::inner::blocks::{BLOCK_SIDE, block_of, corner_of, found_at, is_surrounded};
use crate::inner::{floats_of, read_particle, words_of};
use crate::particle::{PARTICLE_FLOATS, PARTICLE_WORDS, Particle};
use cells::inner::{coordinates, nearest};
use grid::inner::{
    RANGE_WORDS, check_call, check_cover, check_limits, check_regions, count_of, fits, holds_nodes,
    is_finite, refuse, start_of,
};
use grid::{Answer, Refusal, Rule};
use packing::dim2::Cell;
use packing::{Plane, Space};

// The particles of a call, the listed regions that they stand in and each one's range, in lists that hold all that is looked at.
// What other crates call takes these one by one, since its contract stays.
#[derive(Clone, Copy)]
struct Sample<'a> {
    h: f32,
    ids: &'a [u64],
    ranges: &'a [u64],
    pf: &'a [f32],
    pw: &'a [u32],
    particles: usize,
    ghost ranges_long: { length ids.now * words_per_range ≤ length ranges.now },
    ghost floats_long: { particles * floats_per_particle ≤ length pf.now },
    ghost words_long: { particles * words_per_particle ≤ length pw.now },
}

// `count` of them from `start` on.
#[derive(Clone, Copy)]
struct Part<'a> {
    sample: Sample<'a>,
    start: usize,
    count: usize,
    ghost within: { start + count ≤ sample.particles },
}

// Whether slices of these lengths hold so many particles.
pub fn holds_particles(particles: usize, pf: usize, pw: usize) -> bool
    ensures { result ≡ matches (particle_lengths particles pf pw) }
{
    fits(pf, particles, PARTICLE_FLOATS) && fits(pw, particles, PARTICLE_WORDS)
}

// What a stage is refused for; `settings` says whether those in 3 are good, `own` is what is found of its own in 4, ahead of records.
pub fn check_stage(
    settings: bool,
    own: Answer,
    h: f32,
    regions: usize,
    ids: &[u64],
    ranges: &[u64],
    particles: usize,
    pf: &[f32],
    pw: &[u32],
    nf: usize,
    nw: usize,
) -> Answer
    ensures { result ≡ stage_check (settings ∷ []) own h regions ids.now ranges.now particles (store pf.now pw.now) nf nw }
{
    check_lists(
        settings, own, regions, ids, ranges, particles, pf, pw, nf, nw,
    )?;
    check_particles(h, ids, ranges, pf, pw, particles)
}

// Numbers 1 to 3 of a stage, of which `good` says whether its settings are, and what is found of its own in 4. No record is looked at, so that lists of any length are refused at
// once.
pub fn check_lists(
    good: bool,
    own: Answer,
    regions: usize,
    ids: &[u64],
    ranges: &[u64],
    particles: usize,
    pf: &[f32],
    pw: &[u32],
    nf: usize,
    nw: usize,
) -> Answer
    ensures { result ≡ called (matches (stage_lengths regions ids.now ranges.now particles (store pf.now pw.now) nf nw)) (limits regions particles 0) good own }
{
    check_call(
        ids.len() == regions
            && fits(ranges.len(), regions, RANGE_WORDS)
            && holds_particles(particles, pf.len(), pw.len())
            && holds_nodes(regions, nf, nw),
        check_limits(regions, particles, 0),
        good,
        own,
    )
}

// Numbers 4 to 10 of a call that takes particles in listed regions.
pub fn check_particles(
    h: f32,
    ids: &[u64],
    ranges: &[u64],
    pf: &[f32],
    pw: &[u32],
    particles: usize,
) -> Answer
    requires { (length ids.now * words_per_range ≤ length ranges.now) × (particles * floats_per_particle ≤ length pf.now) × (particles * words_per_particle ≤ length pw.now) }
    ensures { result ≡ checked h ids.now ranges.now (store pf.now pw.now) particles }
{
    // What is good, as nearly every call is, is seen in one pass; only what is not is looked through number by number.
    if is_accepted(h, ids, ranges, pf, pw, particles) {
        return Ok(());
    }
    first_particle(Rule::Code, h, ids, 0, pf, pw, 0, particles)?;
    first_particle(Rule::NotFinite, h, ids, 0, pf, pw, 0, particles)?;
    check_places(h, ids, ranges, pf, pw, particles)
}

// Whether no number from 4 on is found, in one pass over the particles. A yes is proved; a no only sends the call through the numbers one by one.
pub fn is_accepted(
    h: f32,
    ids: &[u64],
    ranges: &[u64],
    pf: &[f32],
    pw: &[u32],
    particles: usize,
) -> bool
    requires { (length ids.now * words_per_range ≤ length ranges.now) × (particles * floats_per_particle ≤ length pf.now) × (particles * words_per_particle ≤ length pw.now) }
    ensures { (result ≡ true) → checked h ids.now ranges.now (store pf.now pw.now) particles ≡ done }
{
    let sample = Sample {
        h,
        ids,
        ranges,
        pf,
        pw,
        particles,
    };
    check_regions(ids).is_ok()
        && check_cover(ids.len(), ranges, particles as u64).is_ok()
        && do_regions_pass(sample)
}

// Whether every region's particles pass.
fn do_regions_pass(sample: Sample) -> bool
    requires { Regions sample.ids.now × Covers (length sample.ids.now) sample.ranges.now sample.particles }
    ensures { let s = sample.entry in (result ≡ true) → (i : ℕ) → i < length s.ids.now
        → AllPass s.h s.ids.now (get_or s.ids.now i 0) (store s.pf.now s.pw.now) (start_of s.ranges.now i) (count_of s.ranges.now i) }
{
    for (r, id) in sample.ids.iter().enumerate() {
        let part = Part {
            sample,
            start: start_of(sample.ranges, r),
            count: count_of(sample.ranges, r),
        };
        if !does_region_pass(part, *id) {
            return false;
        }
    }
    true
}

// Whether particles pass as those of a region.
fn does_region_pass(part: Part, region_id: u64) -> bool
    requires { region region_id ≡ region_id }
    ensures { let p = part.entry in let s = p.sample in (result ≡ true) → AllPass s.h s.ids.now region_id (store s.pf.now s.pw.now) p.start p.count }
{
    // That an id is the one of its coordinates is asked rather than proved, which is cheap once a region.
    let corner = packing::dim2::unpack(region_id);
    if packing::dim2::pack(corner.x, corner.y) != region_id {
        return false;
    }
    if !do_particles_stand(part, corner) {
        return false;
    }
    // Few regions lack one of those that their stencils can reach, and only there each stencil has to be looked at.
    if is_surrounded(part.sample.ids, region_id) {
        return true;
    }
    let block = block_of(part.sample.ids, region_id);
    do_stencils_stand(part, &block)
}

fn do_particles_stand(part: Part, corner: Cell) -> bool
    ensures { let p = part.entry in let s = p.sample in (result ≡ true) → (k : ℕ) → p.start ≤ k → k < p.start + p.count → Stands s.h corner.x corner.y (particle_at (store s.pf.now s.pw.now) k) }
{
    let Sample { h, pf, pw, .. } = part.sample;
    let mut places = part.start..part.start + part.count;
    places.all(|p| does_particle_stand(h, corner, read_particle(pf, pw, p)))
}

// Whether a particle's flags, numbers and place are good, as one of the region that begins at a corner.
fn does_particle_stand(h: f32, corner: Cell, q: Particle) -> bool
    ensures { (result ≡ true) → Stands h corner.x corner.y q }
{
    if has_bad_flag(q) || is_not_finite(q) {
        return false;
    }
    let near = coordinates(h, q.position);
    if near.x == 0 || near.y == 0 {
        return false;
    }
    (near.x - 1) / 4 == corner.x / 4 && (near.y - 1) / 4 == corner.y / 4
}

// Whether the stencils of particles that stand in a region have their nodes.
fn do_stencils_stand(part: Part, block: &[usize]) -> bool
    requires { let s = part.sample in (length block.now ≡ block_cells) × ((k : ℕ) → part.start ≤ k → k < part.start + part.count → OnGrid s.h (particle_at (store s.pf.now s.pw.now) k)) }
    ensures { let p = part.entry in let s = p.sample in (result ≡ true) → (k : ℕ) → p.start ≤ k → k < p.start + p.count → AllThere block.now (corner_of s.h (particle_at (store s.pf.now s.pw.now) k)) }
{
    let Sample { h, pf, pw, .. } = part.sample;
    let mut places = part.start..part.start + part.count;
    places.all(|p| does_stencil_stand(h, block, read_particle(pf, pw, p)))
}

fn does_stencil_stand(h: f32, block: &[usize], q: Particle) -> bool
    requires { (length block.now ≡ block_cells) × OnGrid h q }
    ensures { (result ≡ true) → AllThere block.now (corner_of h q) }
{
    let near = nearest(h, q.position);
    are_there(block, corner_of(near.first))
}

// Whether every node of the stencil that begins at a corner has a place.
fn are_there(block: &[usize], corner: usize) -> bool
    requires { (length block.now ≡ block_cells) × (corner < 22) }
    ensures { (result ≡ true) → AllThere block.now corner }
{
    (0..9).all(|k| found_at(block[corner + (k % 3 + BLOCK_SIDE * (k / 3))]).is_some())
}

// Numbers 6 to 10: where the regions and the particles stand.
pub fn check_places(
    h: f32,
    ids: &[u64],
    ranges: &[u64],
    pf: &[f32],
    pw: &[u32],
    particles: usize,
) -> Answer
    requires { (length ids.now * words_per_range ≤ length ranges.now) × (particles * floats_per_particle ≤ length pf.now) × (particles * words_per_particle ≤ length pw.now) }
    ensures { result ≡ placed h ids.now ranges.now (store pf.now pw.now) particles }
{
    let sample = Sample {
        h,
        ids,
        ranges,
        pf,
        pw,
        particles,
    };
    check_regions(ids)?;
    check_cover(ids.len(), ranges, particles as u64)?;
    first_particle(Rule::OffGrid, h, ids, 0, pf, pw, 0, particles)?;
    check_in_regions(sample)?;
    first_particle(Rule::Unlisted, h, ids, 0, pf, pw, 0, particles)
}

// The first particle whose cell is not in its region, region by region.
fn check_in_regions(sample: Sample) -> Answer
    requires { Covers (length sample.ids.now) sample.ranges.now sample.particles }
    ensures { let s = sample.entry in result ≡ out_of_regions s.h s.ids.now s.ranges.now (store s.pf.now s.pw.now) }
{
    let Sample {
        h,
        ids,
        ranges,
        pf,
        pw,
        ..
    } = sample;
    for (r, id) in ids.iter().enumerate() {
        let start = start_of(ranges, r);
        let count = count_of(ranges, r);
        first_particle(Rule::OutOfRegion, h, ids, *id, pf, pw, start, count)?;
    }
    Ok(())
}

// The first of `count` particles from `start` on that a rule refuses.
pub fn first_particle(
    rule: Rule,
    h: f32,
    ids: &[u64],
    region: u64,
    pf: &[f32],
    pw: &[u32],
    start: usize,
    count: usize,
) -> Answer
    requires { ((start + count) * floats_per_particle ≤ length pf.now) × ((start + count) * words_per_particle ≤ length pw.now) }
    ensures { result ≡ first_particle rule h ids.now region (store pf.now pw.now) start count }
{
    for p in start..start + count {
        judge(rule, h, ids, region, read_particle(pf, pw, p), p)?;
    }
    Ok(())
}

// What a rule answers for the particle at a place; rules that look at something else refuse none. By the rule, since one definition, `judged`, is promised of them all: a
// closure for each would need it beside as well.
#[tactic(auto, unfolding(crate::specs::Table::judged))]
fn judge(rule: Rule, h: f32, ids: &[u64], region: u64, q: Particle, p: usize) -> Answer
    ensures { result ≡ refuse (judged rule h ids.now region q) rule p }
{
    match rule {
        Rule::Code => refuse(has_bad_flag(q), rule, p),
        Rule::NotFinite => refuse(is_not_finite(q), rule, p),
        Rule::OffGrid => refuse(is_off_grid(h, q), rule, p),
        Rule::OutOfRegion => refuse(is_out_of_region(h, region, q), rule, p),
        Rule::Unlisted => check_stencil(h, ids, q, p),
        _ => Ok(()),
    }
}

#[tactic(auto, unfolding(crate::specs::Table::bad_flag))]
fn has_bad_flag(q: Particle) -> bool
    ensures { result ≡ bad_flag q }
{
    !words_of(&q).iter().all(|word| *word <= 1)
}

fn is_not_finite(q: Particle) -> bool
    ensures { result ≡ not_finite q }
{
    !floats_of(&q).iter().all(|float| is_finite(*float))
}

#[tactic(auto, unfolding(crate::specs::Table::off_grid))]
fn is_off_grid(h: f32, q: Particle) -> bool
    ensures { result ≡ off_grid h q }
{
    !(is_on_axis(h, q.position.x) && is_on_axis(h, q.position.y))
}

#[tactic(auto, unfolding(crate::specs::Table::on_axis))]
fn is_on_axis(h: f32, x: f32) -> bool
    ensures { result ≡ on_axis h x }
{
    is_coordinate(numeric::round(x / h))
}

// Whether a rounded quotient is the coordinate of a cell that has one before it.
fn is_coordinate(r: f32) -> bool
    ensures { result ≡ in_range r }
{
    1.0 <= r && r <= 65535.0
}

#[tactic(auto, unfolding(crate::specs::Table::out_of_region))]
fn is_out_of_region(h: f32, region: u64, q: Particle) -> bool
    ensures { result ≡ out_of_region h region q }
{
    cells::dim2::region_associated_to_point(h, q.position) != region
}

// Number 10 of the particle at a place: every region of its stencil is listed.
#[tactic(auto, unfolding(crate::specs::Table::unlisted))]
fn check_stencil(h: f32, ids: &[u64], q: Particle, p: usize) -> Answer
    ensures { result ≡ refuse (unlisted h ids.now q) Unlisted p }
{
    let stencil = Plane::stencil(cells::dim2::cell_associated_to_point(h, q.position));
    check_cells(ids, &stencil, p)
}

// The place of each cell's region is taken from the list, or the particle is refused. By `let else`, as document 01 has it.
fn check_cells(ids: &[u64], cell_ids: &[u64], p: usize) -> Answer
    ensures { result ≡ refuse (not (all (listed ids.now) cell_ids.now)) Unlisted p }
{
    for cell_id in cell_ids {
        let Some(_) = cells::lookup(ids, packing::region_of(*cell_id)) else {
            return Err(Refusal {
                rule: Rule::Unlisted,
                index: p,
            });
        };
    }
    Ok(())
}

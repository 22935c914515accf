// The nodes of the sparse grid in lent memory, what a call answers, and clearing. The host lends nodes as floats and words: `nf` and `nw`, 16 nodes for each listed
// region, in the list's order and by the cell's number in its region.
#![tactic(auto)]

pub mod grid_node;
pub mod inner;

ghost use Rattle.std.specs.Prelude.{◌≡◌, ◌+◌, ◌*◌, ◌≤◌, length};
ghost use Rattle.laws.specs.Store.{store, Holds};
ghost use Rattle.laws.specs.Refusals.{settle};
ghost use Rattle.grid.specs.Answers.{number, refused};
ghost use Rattle.grid.specs.Nodes.{node_form, floats_per_node, words_per_node, region_cells};
ghost use Rattle.grid.specs.Clear.{clear_check, cleared, cleared_region};

use grid_node::CELLS_OF_REGION;

// A call is done, or refused.
pub type Answer = Result<(), Refusal>;

// By which rule a call is refused, and at which index.
#[derive(Clone, Copy, Debug, PartialEq, Eq)]
pub struct Refusal {
    pub rule: Rule,
    pub index: usize,
}

// The rules by which a call is refused, a case for each row of the table, in its order.
#[derive(Clone, Copy, Debug, PartialEq, Eq)]
pub enum Rule {
    Length,
    Limit,
    Setting,
    Code,
    NotFinite,
    RegionIds,
    Cover,
    OffGrid,
    OutOfRegion,
    Unlisted,
}

// The number of a rule in the table.
impl From<Rule> for u32 {
    ghost from_gives = { λ rule n. n ≡ number rule };

    fn from(rule: Rule) -> u32 {
        match rule {
            Rule::Length => 1,
            Rule::Limit => 2,
            Rule::Setting => 3,
            Rule::Code => 4,
            Rule::NotFinite => 5,
            Rule::RegionIds => 6,
            Rule::Cover => 7,
            Rule::OffGrid => 8,
            Rule::OutOfRegion => 9,
            Rule::Unlisted => 10,
        }
    }
}

// Every node of every listed region becomes all +0, flag off; or the call is refused, and nothing changes.
pub fn clear(regions: usize, ids: &[u64], nf: &mut [f32], nw: &mut [u32]) -> Answer
    ensures { (result ≡ clear_check regions ids.now (length nf.old) (length nw.old))
        × (store nf.new nw.new ≡ settle (refused result) (store nf.old nw.old) (cleared regions (store nf.old nw.old))) }
{
    check_clear(regions, ids, nf.len(), nw.len())?;
    clear_regions(regions, nf, nw);
    Ok(())
}

// What a call of `clear` is refused for.
fn check_clear(regions: usize, ids: &[u64], nf: usize, nw: usize) -> Answer
    ensures { result ≡ clear_check regions ids.now nf nw }
{
    if !((ids.len() == regions) & inner::holds_nodes(regions, nf, nw)) {
        return Err(Refusal {
            rule: Rule::Length,
            index: 0,
        });
    }
    inner::check_limits(regions, 0, 0)?;
    inner::check_regions(ids)
}

fn clear_regions(regions: usize, nf: &mut [f32], nw: &mut [u32])
    requires { Holds node_form (store nf.old nw.old) (regions * region_cells) }
    ensures { store nf.new nw.new ≡ cleared regions (store nf.old nw.old) }
{
    for r in 0..regions {
        clear_region(r * CELLS_OF_REGION, nf, nw);
    }
}

// The 16 nodes from `first` on.
fn clear_region(first: usize, nf: &mut [f32], nw: &mut [u32])
    requires { ((first + region_cells) * floats_per_node ≤ length nf.old) × ((first + region_cells) * words_per_node ≤ length nw.old) }
    ensures { store nf.new nw.new ≡ cleared_region first (store nf.old nw.old) }
{
    for c in 0..CELLS_OF_REGION {
        inner::write_node(nf, nw, first + c, inner::empty());
    }
}

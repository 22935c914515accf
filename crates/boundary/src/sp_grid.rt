// Cells of points, lookup and clear over the boundary. A slice crosses as a pointer and a length; of what is lent here, only clear writes any.
ghost use Rattle.std.specs.Prelude.{[], ◌∷◌, ◌≡◌, length};
ghost use Rattle.packing.specs.Ids.{dim2};
ghost use Rattle.laws.specs.Store.{store};
ghost use Rattle.laws.specs.Refusals.{settle};
ghost use Rattle.cells.specs.Cells.{cell_pos_closest_to_point, cell_at_point, cell_associated_to_point, region_associated_to_point, cell_center};
ghost use Rattle.cells.specs.Lookup.{lookup};
ghost use Rattle.grid.specs.Answers.{number_of, index_of, refused};
ghost use Rattle.grid.specs.Clear.{clear_check, cleared};
ghost use Rattle.boundary.specs.Crossing.{found_flag, found_place};

use crate::answers::Refusal;
use numeric::dim2::Point;

// Where an id stands in a list: 1 and its place, or 0 and 0. An Option does not cross the C interface.
#[repr(C)]
#[derive(Clone, Copy)]
pub struct FoundPlace {
    pub found: u32,
    pub place: usize,
}

#[unsafe(no_mangle)]
pub extern "C" fn mk_lookup(ids: &[u64], id: u64) -> FoundPlace
    ensures { (result.found ≡ found_flag (lookup ids.now id)) × (result.place ≡ found_place (lookup ids.now id)) }
{
    match cells::lookup(ids, id) {
        Some(place) => FoundPlace { found: 1, place },
        None => FoundPlace { found: 0, place: 0 },
    }
}

#[unsafe(no_mangle)]
pub extern "C" fn mk_cell_pos_closest_to_point2(cell_width: f32, pt: Point) -> Point
    ensures { result.x ∷ result.y ∷ [] ≡ cell_pos_closest_to_point cell_width (pt.x ∷ pt.y ∷ []) }
{
    cells::dim2::cell_pos_closest_to_point(cell_width, pt)
}

#[unsafe(no_mangle)]
pub extern "C" fn mk_cell_at_point2(cell_width: f32, pt: Point) -> u64
    ensures { result ≡ cell_at_point dim2 cell_width (pt.x ∷ pt.y ∷ []) }
{
    cells::dim2::cell_at_point(cell_width, pt)
}

#[unsafe(no_mangle)]
pub extern "C" fn mk_cell_associated_to_point2(cell_width: f32, pt: Point) -> u64
    ensures { result ≡ cell_associated_to_point dim2 cell_width (pt.x ∷ pt.y ∷ []) }
{
    cells::dim2::cell_associated_to_point(cell_width, pt)
}

#[unsafe(no_mangle)]
pub extern "C" fn mk_region_associated_to_point2(cell_width: f32, pt: Point) -> u64
    ensures { result ≡ region_associated_to_point dim2 cell_width (pt.x ∷ pt.y ∷ []) }
{
    cells::dim2::region_associated_to_point(cell_width, pt)
}

#[unsafe(no_mangle)]
pub extern "C" fn mk_cell_center2(cell_width: f32, cell_id: u64) -> Point
    ensures { result.x ∷ result.y ∷ [] ≡ cell_center dim2 cell_width cell_id }
{
    cells::dim2::cell_center(cell_width, cell_id)
}

// Every node of every listed region becomes all +0, flag off; or the call is refused, and nothing changes.
#[unsafe(no_mangle)]
pub extern "C" fn mk_clear2(
    regions: usize,
    ids: &[u64],
    node_floats: &mut [f32],
    node_words: &mut [u32],
) -> Refusal
    ensures { let a = clear_check regions ids.now (length node_floats.old) (length node_words.old) in
        (result.number ≡ number_of a) × (result.index ≡ index_of a)
        × (store node_floats.new node_words.new ≡ settle (refused a) (store node_floats.old node_words.old) (cleared regions (store node_floats.old node_words.old))) }
{
    Refusal::from(grid::clear(regions, ids, node_floats, node_words))
}

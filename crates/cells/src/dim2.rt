// The cells of the plane's points.
ghost use Rattle.std.specs.Prelude.{◌≡◌, [], ◌∷◌};
ghost use Rattle.packing.specs.Ids.{dim2};
ghost use Rattle.cells.specs.Cells.{coordinate, one_off, cell_pos_closest_to_point, cell_at_point, cell_associated_to_point, region_associated_to_point, cell_center};

use numeric::dim2::Point;
use packing::dim2;

// The centre of the cell that is nearest to a point.
pub fn cell_pos_closest_to_point(cell_width: f32, pt: Point) -> Point
    ensures { result.x ∷ result.y ∷ [] ≡ cell_pos_closest_to_point cell_width (pt.x ∷ pt.y ∷ []) }
{
    Point {
        x: numeric::round(pt.x / cell_width) * cell_width,
        y: numeric::round(pt.y / cell_width) * cell_width,
    }
}

// The id of that cell.
pub fn cell_at_point(cell_width: f32, pt: Point) -> u64
    ensures { result ≡ cell_at_point dim2 cell_width (pt.x ∷ pt.y ∷ []) }
{
    dim2::pack(coord(cell_width, pt.x), coord(cell_width, pt.y))
}

// The id of the first cell of a point's stencil: one less on each axis, wrapping.
pub fn cell_associated_to_point(cell_width: f32, pt: Point) -> u64
    ensures { result ≡ cell_associated_to_point dim2 cell_width (pt.x ∷ pt.y ∷ []) }
{
    dim2::pack(
        one_off(coord(cell_width, pt.x)),
        one_off(coord(cell_width, pt.y)),
    )
}

// The region of that cell.
pub fn region_associated_to_point(cell_width: f32, pt: Point) -> u64
    ensures { result ≡ region_associated_to_point dim2 cell_width (pt.x ∷ pt.y ∷ []) }
{
    packing::region_of(cell_associated_to_point(cell_width, pt))
}

// The centre of a cell, whatever stray bits its id has.
pub fn cell_center(cell_width: f32, cell_id: u64) -> Point
    ensures { result.x ∷ result.y ∷ [] ≡ cell_center dim2 cell_width cell_id }
{
    let cell = dim2::unpack(cell_id);
    Point {
        x: numeric::from_u32(cell.x) * cell_width,
        y: numeric::from_u32(cell.y) * cell_width,
    }
}

// The coordinate of a point on an axis.
fn coord(cell_width: f32, x: f32) -> u32
    ensures { result ≡ coordinate cell_width x }
{
    numeric::to_u32(numeric::round(x / cell_width))
}

// The coordinate before; before 0 comes the last one.
pub(crate) fn one_off(c: u32) -> u32
    ensures { result ≡ one_off c }
{
    c.wrapping_sub(1)
}

// What the stages share of a particle's stencil: how its nodes lie to the particle, and what they weigh. No host reaches these.
ghost use Rattle.std.specs.Prelude.{◌≡◌, ◌<◌, true, [], ◌∷◌};
ghost use Rattle.numeric.specs.Round.{round_away, cast_u32};
ghost use Rattle.cells.specs.Cells.{nearest, in_range, one_off};
ghost use Rattle.cells.specs.Stencil.{step_at, IsCoordinate, dir_to_associated_grid_node, dpt_of, weight_of};

use numeric::dim2::{Point, Vector};
use numeric::inner::nearest_whole;
use packing::dim2::Cell;

// The nodes of a stencil along an axis.
pub const STENCIL_SIDE: u32 = 3;

// Where a point lies, in cells: the nearest whole number on each axis, and the cell before that.
#[derive(Clone, Copy)]
pub struct Near {
    pub at: Point,
    pub first: Cell,
}

// Where a point that is on the grid lies.
pub fn nearest(cell_width: f32, pt: Point) -> Near
    requires { (in_range (nearest cell_width pt.x) ≡ true) × (in_range (nearest cell_width pt.y) ≡ true) }
    ensures { (result.at.x ∷ result.at.y ∷ [] ≡ nearest cell_width pt.x ∷ nearest cell_width pt.y ∷ [])
        × (result.first.x ∷ result.first.y ∷ [] ≡ one_off (cast_u32 (nearest cell_width pt.x)) ∷ one_off (cast_u32 (nearest cell_width pt.y)) ∷ []) }
{
    let cell = coordinates(cell_width, pt);
    Near {
        at: Point {
            x: cell.x as f32,
            y: cell.y as f32,
        },
        first: Cell {
            x: cell.x - 1,
            y: cell.y - 1,
        },
    }
}

// The coordinates of the cell that is nearest to a point, and 0 on an axis where it is off the grid.
pub fn coordinates(cell_width: f32, pt: Point) -> Cell
    ensures { IsCoordinate (nearest cell_width pt.x) result.x × IsCoordinate (nearest cell_width pt.y) result.y }
{
    Cell {
        x: coordinate(pt.x / cell_width),
        y: coordinate(pt.y / cell_width),
    }
}

// That of a point at x, in cells. 0, which no cell of the grid has, stands for none: under an Option for each axis `nearest` would have two arms that never run.
fn coordinate(x: f32) -> u32
    ensures { IsCoordinate (round_away x) result }
{
    if x.is_nan() {
        return 0;
    }
    let b = x.to_bits();
    // below 0, or 2^23 and more
    if b >= 0x4b00_0000 {
        return 0;
    }
    let n = nearest_whole(b);
    if n > 65535 {
        return 0;
    }
    n
}

// From a particle, which lies `near` there in cells, to the first node of its stencil.
pub fn dir_to_associated_grid_node(cell_width: f32, near: Point, position: Point) -> Vector
    requires { near.x ∷ near.y ∷ [] ≡ nearest cell_width position.x ∷ nearest cell_width position.y ∷ [] }
    ensures { result.x ∷ result.y ∷ [] ≡ dir_to_associated_grid_node cell_width (position.x ∷ position.y ∷ []) }
{
    Vector {
        x: (near.x - 1.0) * cell_width - position.x,
        y: (near.y - 1.0) * cell_width - position.y,
    }
}

// By how many cells the i-th node along an axis lies beyond the first: a table would be laid out anew at each use.
pub fn step(i: u32) -> u32
    requires { i < 3 }
    ensures { (result ≡ step_at i) × (result < 3) }
{
    (i + 2) % 3
}

// From the particle to the node at a shift.
pub fn dpt(cell_width: f32, dir: Vector, shift: Cell) -> Vector
    ensures { result.x ∷ result.y ∷ [] ≡ dpt_of cell_width (dir.x ∷ dir.y ∷ []) (shift.x ∷ shift.y ∷ []) }
{
    Vector {
        x: dir.x + numeric::from_u32(shift.x) * cell_width,
        y: dir.y + numeric::from_u32(shift.y) * cell_width,
    }
}

// The weight of the node at a shift.
pub fn weight(w: [[f32; 3]; 2], shift: Cell) -> f32
    requires { (shift.x < 3) × (shift.y < 3) }
    ensures { result ≡ weight_of w (shift.x ∷ shift.y ∷ []) }
{
    w[0][shift.x as usize] * w[1][shift.y as usize]
}

// A node of the grid.
use numeric::dim2::Vector;

// The floats and the words of a node in lent memory, and the nodes of a region, 4 along each axis.
pub const NODE_FLOATS: usize = 7;

pub const NODE_WORDS: usize = 1;

pub const CELLS_OF_REGION: usize = 16;

#[derive(Clone, Copy)]
pub struct GridNode {
    pub mass: f32,
    pub momentum: Vector,
    pub velocity: Vector,
    pub psi_momentum: f32,
    pub psi_mass: f32,
    pub boundary: u32,
}

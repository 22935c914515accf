// Where a particle stands among the nodes of its stencil, which scatter, gather and fluids look for once a particle.
ghost use Rattle.std.specs.Prelude.{◌≡◌, ◌<◌};
ghost use Rattle.numeric.specs.Axes.{axes};
ghost use Rattle.numeric.specs.Kernel.{precompute_weights};
ghost use Rattle.cells.specs.Stencil.{dir_to_associated_grid_node};
ghost use Rattle.particles.specs.Particles.{position_of};
ghost use Rattle.particles.specs.Blocks.{corner_of};
ghost use Rattle.particles.specs.Table.{OnGrid};

use crate::inner::blocks::corner_of;
use crate::particle::Particle;
use cells::inner::{dir_to_associated_grid_node, nearest};
use numeric::dim2::{Vector, precompute_weights};

// A particle's way to the first node of its stencil, the weights of the nodes, and where they begin in its region's block.
#[derive(Clone, Copy)]
pub struct Spot {
    pub cell_width: f32,
    pub dir: Vector,
    pub weights: [[f32; 3]; 2],
    pub corner: usize,
    ghost weighs: { weights ≡ precompute_weights (axes dir) cell_width },
    ghost within: { corner < 22 },
}

// That of a particle on the grid. Left to itself the compiler calls it, which costs a scatter 70 instructions a particle.
#[inline(always)]
pub fn spot_of(cell_width: f32, q: &Particle) -> Spot
    requires { OnGrid cell_width q.now }
    ensures width { result.cell_width ≡ cell_width }
    ensures way { axes result.dir ≡ dir_to_associated_grid_node cell_width (position_of q.now) }
    ensures start { result.corner ≡ corner_of cell_width q.now }
{
    let near = nearest(cell_width, q.position);
    let dir = dir_to_associated_grid_node(cell_width, near.at, q.position);
    Spot {
        cell_width,
        dir,
        weights: precompute_weights(dir, cell_width),
        corner: corner_of(near.first),
    }
}

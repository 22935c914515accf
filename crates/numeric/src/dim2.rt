// The quadratic kernel in the plane.
ghost use Rattle.std.specs.Prelude.{◌≡◌, [], ◌∷◌};
ghost use Rattle.numeric.specs.Kernel.{minus_all, precompute_weights, stencil_with_dir, stencil, stencil_gradient_with_dir, stencil_gradient};

use crate::kernel;

#[repr(C)]
#[derive(Clone, Copy, Debug, PartialEq)]
pub struct Vector {
    pub x: f32,
    pub y: f32,
}

#[repr(C)]
#[derive(Clone, Copy, Debug, PartialEq)]
pub struct Point {
    pub x: f32,
    pub y: f32,
}

impl From<Vector> for Point {
    ghost from_gives = { λ v p. p ≡ record { x = v.x; y = v.y } };

    // The point at which the vector from the origin ends.
    fn from(v: Vector) -> Point {
        Point { x: v.x, y: v.y }
    }
}

impl From<Point> for Vector {
    ghost from_gives = { λ p v. v ≡ record { x = p.x; y = p.y } };

    // The vector from the origin to the point.
    fn from(p: Point) -> Vector {
        Vector { x: p.x, y: p.y }
    }
}

// By rows: m01 stands in row 0, column 1.
#[repr(C)]
#[derive(Clone, Copy, Debug, PartialEq)]
pub struct Matrix {
    pub m00: f32,
    pub m01: f32,
    pub m10: f32,
    pub m11: f32,
}

// The weights of the three nodes of each axis, for a particle whose first node lies at this vector from it.
pub fn precompute_weights(ref_elt_pos_minus_particle_pos: Vector, h: f32) -> [[f32; 3]; 2]
    ensures { result ≡ precompute_weights (ref_elt_pos_minus_particle_pos.x ∷ ref_elt_pos_minus_particle_pos.y ∷ []) h }
{
    [
        kernel::eval_all(-ref_elt_pos_minus_particle_pos.x / h),
        kernel::eval_all(-ref_elt_pos_minus_particle_pos.y / h),
    ]
}

// The weight of a node that lies at this vector from a particle.
pub fn stencil_with_dir(elt_pos_minus_particle_pos: Vector, h: f32) -> f32
    ensures { result ≡ stencil_with_dir (elt_pos_minus_particle_pos.x ∷ elt_pos_minus_particle_pos.y ∷ []) h }
{
    kernel::eval(-elt_pos_minus_particle_pos.x / h)
        * kernel::eval(-elt_pos_minus_particle_pos.y / h)
}

// The weight of a node at a point, for a particle at another.
pub fn stencil(elt_pos: Point, particle_pos: Point, h: f32) -> f32
    ensures { result ≡ stencil (elt_pos.x ∷ elt_pos.y ∷ []) (particle_pos.x ∷ particle_pos.y ∷ []) h }
{
    stencil_with_dir(minus(elt_pos, particle_pos), h)
}

// The gradient of that weight.
pub fn stencil_gradient_with_dir(elt_pos_minus_particle_pos: Vector, h: f32) -> Vector
    ensures { result.x ∷ result.y ∷ [] ≡ stencil_gradient_with_dir (elt_pos_minus_particle_pos.x ∷ elt_pos_minus_particle_pos.y ∷ []) h }
{
    let inv_h = 1.0 / h;
    let x = -elt_pos_minus_particle_pos.x * inv_h;
    let y = -elt_pos_minus_particle_pos.y * inv_h;
    let val_x = kernel::eval(x);
    let val_y = kernel::eval(y);
    Vector {
        x: inv_h * kernel::eval_derivative(x) * val_y,
        y: inv_h * val_x * kernel::eval_derivative(y),
    }
}

// The same of a node at a point and a particle at another.
pub fn stencil_gradient(elt_pos: Point, particle_pos: Point, h: f32) -> Vector
    ensures { result.x ∷ result.y ∷ [] ≡ stencil_gradient (elt_pos.x ∷ elt_pos.y ∷ []) (particle_pos.x ∷ particle_pos.y ∷ []) h }
{
    stencil_gradient_with_dir(minus(elt_pos, particle_pos), h)
}

// The vector from b to a.
fn minus(a: Point, b: Point) -> Vector
    ensures { result.x ∷ result.y ∷ [] ≡ minus_all (a.x ∷ a.y ∷ []) (b.x ∷ b.y ∷ []) }
{
    Vector {
        x: a.x - b.x,
        y: a.y - b.y,
    }
}

// Numeric over the boundary: every f32 is taken, whatever its bits.
ghost use Rattle.std.specs.Prelude.{[], ◌∷◌, ◌≡◌};
ghost use Rattle.std.specs.Float.{binary32};
ghost use Rattle.std.specs.Float.Ieee.{to_bits, of_bits};
ghost use Rattle.numeric.specs.Round.{round_away, cast_u32, nearest_to};
ghost use Rattle.numeric.specs.Root.{root_of};
ghost use Rattle.numeric.specs.Scalar.{inverse, maximum, magnitude, sign_of};
ghost use Rattle.numeric.specs.Kernel.{inv_d, eval_all, eval, eval_derivative, precompute_weights, stencil_with_dir, stencil, stencil_gradient_with_dir, stencil_gradient};

use numeric::dim2::{Point, Vector};

// The weights of three nodes in a row.
#[repr(C)]
#[derive(Clone, Copy)]
pub struct Weights {
    pub weights: [f32; 3],
}

// The same for each axis of the plane.
#[repr(C)]
#[derive(Clone, Copy)]
pub struct Weights2 {
    pub x: [f32; 3],
    pub y: [f32; 3],
}

#[unsafe(no_mangle)]
pub extern "C" fn mk_to_bits(x: f32) -> u32
    ensures { result ≡ to_bits binary32 x }
{
    numeric::to_bits(x)
}

#[unsafe(no_mangle)]
pub extern "C" fn mk_from_bits(b: u32) -> f32
    ensures { result ≡ of_bits binary32 b }
{
    numeric::from_bits(b)
}

#[unsafe(no_mangle)]
pub extern "C" fn mk_round(x: f32) -> f32
    ensures { result ≡ round_away x }
{
    numeric::round(x)
}

#[unsafe(no_mangle)]
pub extern "C" fn mk_to_u32(x: f32) -> u32
    ensures { result ≡ cast_u32 x }
{
    numeric::to_u32(x)
}

#[unsafe(no_mangle)]
pub extern "C" fn mk_from_u32(n: u32) -> f32
    ensures { result ≡ nearest_to n }
{
    numeric::from_u32(n)
}

#[unsafe(no_mangle)]
pub extern "C" fn mk_root(x: f32) -> f32
    ensures { result ≡ root_of x }
{
    numeric::root(x)
}

#[unsafe(no_mangle)]
pub extern "C" fn mk_inv_exact(e: f32) -> f32
    ensures { result ≡ inverse e }
{
    numeric::inv_exact(e)
}

#[unsafe(no_mangle)]
pub extern "C" fn mk_max(a: f32, b: f32) -> f32
    ensures { result ≡ maximum a b }
{
    numeric::max(a, b)
}

#[unsafe(no_mangle)]
pub extern "C" fn mk_abs(x: f32) -> f32
    ensures { result ≡ magnitude x }
{
    numeric::abs(x)
}

#[unsafe(no_mangle)]
pub extern "C" fn mk_signum(x: f32) -> f32
    ensures { result ≡ sign_of x }
{
    numeric::signum(x)
}

#[unsafe(no_mangle)]
pub extern "C" fn mk_inv_d(cell_width: f32) -> f32
    ensures { result ≡ inv_d cell_width }
{
    numeric::kernel::inv_d(cell_width)
}

#[unsafe(no_mangle)]
pub extern "C" fn mk_eval_all(x: f32) -> Weights
    ensures { result.weights ≡ eval_all x }
{
    Weights {
        weights: numeric::kernel::eval_all(x),
    }
}

#[unsafe(no_mangle)]
pub extern "C" fn mk_eval(x: f32) -> f32
    ensures { result ≡ eval x }
{
    numeric::kernel::eval(x)
}

#[unsafe(no_mangle)]
pub extern "C" fn mk_eval_derivative(x: f32) -> f32
    ensures { result ≡ eval_derivative x }
{
    numeric::kernel::eval_derivative(x)
}

#[unsafe(no_mangle)]
pub extern "C" fn mk_precompute_weights2(ref_elt_pos_minus_particle_pos: Vector, h: f32) -> Weights2
    ensures { result.x ∷ result.y ∷ [] ≡ precompute_weights (ref_elt_pos_minus_particle_pos.x ∷ ref_elt_pos_minus_particle_pos.y ∷ []) h }
{
    let weights = numeric::dim2::precompute_weights(ref_elt_pos_minus_particle_pos, h);
    Weights2 {
        x: weights[0],
        y: weights[1],
    }
}

#[unsafe(no_mangle)]
pub extern "C" fn mk_stencil_with_dir2(elt_pos_minus_particle_pos: Vector, h: f32) -> f32
    ensures { result ≡ stencil_with_dir (elt_pos_minus_particle_pos.x ∷ elt_pos_minus_particle_pos.y ∷ []) h }
{
    numeric::dim2::stencil_with_dir(elt_pos_minus_particle_pos, h)
}

#[unsafe(no_mangle)]
pub extern "C" fn mk_stencil2(elt_pos: Point, particle_pos: Point, h: f32) -> f32
    ensures { result ≡ stencil (elt_pos.x ∷ elt_pos.y ∷ []) (particle_pos.x ∷ particle_pos.y ∷ []) h }
{
    numeric::dim2::stencil(elt_pos, particle_pos, h)
}

#[unsafe(no_mangle)]
pub extern "C" fn mk_stencil_gradient_with_dir2(
    elt_pos_minus_particle_pos: Vector,
    h: f32,
) -> Vector
    ensures { result.x ∷ result.y ∷ [] ≡ stencil_gradient_with_dir (elt_pos_minus_particle_pos.x ∷ elt_pos_minus_particle_pos.y ∷ []) h }
{
    numeric::dim2::stencil_gradient_with_dir(elt_pos_minus_particle_pos, h)
}

#[unsafe(no_mangle)]
pub extern "C" fn mk_stencil_gradient2(elt_pos: Point, particle_pos: Point, h: f32) -> Vector
    ensures { result.x ∷ result.y ∷ [] ≡ stencil_gradient (elt_pos.x ∷ elt_pos.y ∷ []) (particle_pos.x ∷ particle_pos.y ∷ []) h }
{
    numeric::dim2::stencil_gradient(elt_pos, particle_pos, h)
}

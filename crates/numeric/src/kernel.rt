// The quadratic kernel along one axis. Each operation is rounded once, in the order written; a square is one product.
ghost use Rattle.std.specs.Prelude.{◌≡◌};
ghost use Rattle.numeric.specs.Kernel.{inv_d, eval_all, eval, eval_derivative};

use crate::scalar;

// 4 / cell_width^2.
pub fn inv_d(cell_width: f32) -> f32
    ensures { result ≡ inv_d cell_width }
{
    4.0 / (cell_width * cell_width)
}

// The weights of the three nodes around a point that lies x beyond the first of them, in cells.
pub fn eval_all(x: f32) -> [f32; 3]
    ensures { result ≡ eval_all x }
{
    let a = 1.5 - x;
    let b = x - 1.0;
    let c = x - 0.5;
    [0.5 * (a * a), 0.75 - b * b, 0.5 * (c * c)]
}

// The weight of a node at the distance x, in cells.
pub fn eval(x: f32) -> f32
    ensures { result ≡ eval x }
{
    let x_abs = scalar::abs(x);
    if x_abs < 0.5 {
        return 0.75 - x_abs * x_abs;
    }
    if x_abs < 1.5 {
        let t = 1.5 - x_abs;
        return 0.5 * (t * t);
    }
    0.0
}

// Its derivative there.
pub fn eval_derivative(x: f32) -> f32
    ensures { result ≡ eval_derivative x }
{
    let x_abs = scalar::abs(x);
    let sign = scalar::signum(x);
    if x_abs < 0.5 {
        return -2.0 * sign * x_abs;
    }
    let t = 1.5 - x_abs;
    if x_abs < 1.5 { -sign * t } else { 0.0 }
}

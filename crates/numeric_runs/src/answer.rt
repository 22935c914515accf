// The answer to a question, written into a lent slice. Each function says where the slice is free then.
use crate::question::{Operation, Question};
use fields::out::{put_byte, put_hex};
use numeric::dim2::{Point, Vector};
use numeric::{dim2, from_bits, kernel, to_bits};

pub fn answer(question: Question, out: &mut [u8]) -> usize {
    let [a, b, c, d, e] = question.fields;
    let x = from_bits(a);
    match question.operation {
        Operation::Round => put_floats(out, &[numeric::round(x)]),
        Operation::ToU32 => put_word(out, 0, numeric::to_u32(x)),
        Operation::FromU32 => put_floats(out, &[numeric::from_u32(a)]),
        Operation::Root => put_floats(out, &[numeric::root(x)]),
        Operation::InvExact => put_floats(out, &[numeric::inv_exact(x)]),
        Operation::Max => put_floats(out, &[numeric::max(x, from_bits(b))]),
        Operation::Abs => put_floats(out, &[numeric::abs(x)]),
        Operation::Signum => put_floats(out, &[numeric::signum(x)]),
        Operation::Bits => put_floats(out, &[x]),
        Operation::InvD => put_floats(out, &[kernel::inv_d(x)]),
        Operation::EvalAll => put_floats(out, &kernel::eval_all(x)),
        Operation::Eval => put_floats(out, &[kernel::eval(x)]),
        Operation::EvalDerivative => put_floats(out, &[kernel::eval_derivative(x)]),
        Operation::PrecomputeWeights => {
            let weights = dim2::precompute_weights(vector(a, b), from_bits(c));
            put_floats(out, weights.as_flattened())
        }
        Operation::StencilWithDir => {
            put_floats(out, &[dim2::stencil_with_dir(vector(a, b), from_bits(c))])
        }
        Operation::Stencil => {
            put_floats(
                out,
                &[dim2::stencil(point(a, b), point(c, d), from_bits(e))],
            )
        }
        Operation::StencilGradientWithDir => put_vector(
            out,
            dim2::stencil_gradient_with_dir(vector(a, b), from_bits(c)),
        ),
        Operation::StencilGradient => put_vector(
            out,
            dim2::stencil_gradient(point(a, b), point(c, d), from_bits(e)),
        ),
    }
}

fn vector(x: u32, y: u32) -> Vector {
    Vector {
        x: from_bits(x),
        y: from_bits(y),
    }
}

fn point(x: u32, y: u32) -> Point {
    Point::from(vector(x, y))
}

fn put_word(out: &mut [u8], at: usize, n: u32) -> usize {
    put_hex(out, at, u64::from(n), 8)
}

fn put_vector(out: &mut [u8], v: Vector) -> usize {
    put_floats(out, &[v.x, v.y])
}

// The floats' bits, with a tab before each but the first.
fn put_floats(out: &mut [u8], floats: &[f32]) -> usize {
    let mut at = 0;
    for (k, x) in floats.iter().enumerate() {
        if 0 < k {
            at = put_byte(out, at, b'\t');
        }
        at = put_word(out, at, to_bits(*x));
    }
    at
}

// The float rules that the stages lean on: rounding, cast, root, inverse, maximum, and the kernel. Floats only, and every f32 is taken.
#![tactic(auto)]

mod bits;
pub mod dim2;
pub mod inner;
pub mod kernel;
mod roots;
mod rounding;
mod scalar;

pub use bits::{from_bits, to_bits};
pub use roots::root;
pub use rounding::{from_u32, round, to_u32};
pub use scalar::{abs, inv_exact, max, signum};

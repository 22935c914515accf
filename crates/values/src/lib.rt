// Document 01's eleven values, asked of the port's own functions.
#![tactic(auto)]

ghost use Rattle.std.specs.Prelude.{◌≡◌};
ghost use Rattle.values.specs.Table.{table, whole_said, floats_said};

use numeric::kernel;
use packing::{Plane, Solid, Space, dim2, dim3};

// What the port answers, row by row: eight whole numbers, and five floats in three rows.
#[derive(Clone, Copy)]
pub struct Values {
    pub whole: [u64; 8],
    pub floats: [f32; 5],
}

// The port answers what the document says.
pub fn answered() -> Values
    ensures { (result.whole ≡ whole_said table) × (result.floats ≡ floats_said table) }
{
    Values {
        whole: whole(),
        floats: floats(),
    }
}

fn whole() -> [u64; 8]
    ensures { result ≡ whole_said table }
{
    let five = dim2::pack(5, 5);
    let negative = dim2::packi(-1, -1);
    let negative3 = dim3::packi(-1, -1, -1);
    [
        dim2::pack(2, 2),
        five,
        negative,
        Plane::packed_add(negative, five),
        dim2::pack(0x1000_0000, 0),
        dim3::pack(4, 4, 4),
        negative3,
        Solid::packed_add(negative3, 0),
    ]
}

fn floats() -> [f32; 5]
    ensures { result ≡ floats_said table }
{
    let weights = kernel::eval_all(1.0);
    [
        weights[0],
        weights[1],
        weights[2],
        numeric::round(2.5),
        numeric::root(2.25),
    ]
}

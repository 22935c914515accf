// The answer to a question, written into a lent slice. Each function says where the slice is free then.
ghost use Rattle.std.specs.Prelude.{◌≤◌};

use crate::question::{Axes, Cells, Operation, Question};
use fields::out::{put_byte, put_decimal, put_hex};
use fields::{low, signed};
use packing::{Plane, Solid, Space, dim2, dim3};

pub fn answer(question: Question, out: &mut [u8]) -> usize {
    let Question { operation, a, b, c } = question;
    match operation {
        Operation::Pack(Axes::Two) => put_id(out, 0, dim2::pack(low(a), low(b))),
        Operation::Pack(Axes::Three) => put_id(out, 0, dim3::pack(low(a), low(b), low(c))),
        Operation::Packi(Axes::Two) => put_id(out, 0, dim2::packi(signed(low(a)), signed(low(b)))),
        Operation::Packi(Axes::Three) => put_id(
            out,
            0,
            dim3::packi(signed(low(a)), signed(low(b)), signed(low(c))),
        ),
        Operation::Unpack(Axes::Two) => {
            let p = dim2::unpack(a);
            put_all(out, &[u64::from(p.x), u64::from(p.y)], put_decimal)
        }
        Operation::Unpack(Axes::Three) => {
            let p = dim3::unpack(a);
            put_all(
                out,
                &[u64::from(p.x), u64::from(p.y), u64::from(p.z)],
                put_decimal,
            )
        }
        Operation::Of(Axes::Two, cells) => of_cells::<Plane, 9, 3>(cells, a, b, out),
        Operation::Of(Axes::Three, cells) => of_cells::<Solid, 27, 7>(cells, a, b, out),
        Operation::RegionOf => put_id(out, 0, packing::region_of(a)),
        Operation::MaskedAdd => put_id(out, 0, packing::masked_add(a, b, c)),
    }
}

fn of_cells<S: Space<SHIFTS, NEIGHBORS>, const SHIFTS: usize, const NEIGHBORS: usize>(
    cells: Cells,
    a: u64,
    b: u64,
    out: &mut [u8],
) -> usize
    requires { (SHIFTS ≤ 64) × (NEIGHBORS ≤ 64) }
{
    match cells {
        Cells::PackedAdd => put_id(out, 0, S::packed_add(a, b)),
        Cells::NegOne => put_id(out, 0, S::shift_cell_neg_one(a)),
        Cells::NegTwo => put_id(out, 0, S::shift_cell_neg_two(a)),
        Cells::PlusFive => put_id(out, 0, S::shift_cell_plus_five(a)),
        Cells::InColor => put_decimal(out, 0, u64::from(S::is_in_region_with_color(a, b))),
        Cells::Neighbors => put_all(out, &S::region_neighbors(a), put_id),
        Cells::Stencil => put_all(out, &S::stencil(a), put_id),
        Cells::Shifts => put_all(out, &S::nbh_shifts(), put_id),
        Cells::RegionShifts => put_all(out, &S::nbh_region_shifts(), put_id),
        Cells::Number => put_decimal(out, 0, S::number_in_region(a)),
        Cells::OfRegion => put_id(out, 0, S::cell_of_region(a, b)),
    }
}

fn put_id(out: &mut [u8], at: usize, id: u64) -> usize {
    put_hex(out, at, id, 16)
}

// The numbers as `put` puts each, with a tab before each but the first.
fn put_all<F: Fn(&mut [u8], usize, u64) -> usize>(out: &mut [u8], numbers: &[u64], put: F) -> usize
    requires { F.IsAlwaysCallable put }
{
    let mut at = 0;
    for (k, n) in numbers.iter().enumerate() {
        if 0 < k {
            at = put_byte(out, at, b'\t');
        }
        at = put(out, at, *n);
    }
    at
}

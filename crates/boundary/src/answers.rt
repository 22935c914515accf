// What a call answers, as it crosses the boundary.
ghost use Rattle.std.specs.Prelude.{◌≡◌};
ghost use Rattle.grid.specs.Answers.{number_of, index_of};

use grid::Answer;

// A number of the table and an index; 0 and 0 where the call is done. A Result does not cross the C interface.
#[repr(C)]
#[derive(Clone, Copy)]
pub struct Refusal {
    pub number: u32,
    pub index: usize,
}

impl From<Answer> for Refusal {
    ghost from_gives = { λ a r. (r.number ≡ number_of a) × (r.index ≡ index_of a) };

    fn from(a: Answer) -> Refusal {
        match a {
            Ok(()) => Refusal {
                number: 0,
                index: 0,
            },
            Err(e) => Refusal {
                number: u32::from(e.rule),
                index: e.index,
            },
        }
    }
}

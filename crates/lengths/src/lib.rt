// The lengths of a step's substeps. The host proposes each, and the step ends when its time is used up, after one substep if asked, or when no proposal is left.
#![tactic(auto)]

pub mod mls_solver;

ghost use Rattle.std.specs.Prelude.{◌≡◌};
ghost use Rattle.lengths.specs.Lengths.{end_number};

// How a step ended: its time is used up, one substep was asked for and is done, or no proposal is left.
#[derive(Clone, Copy, Debug, PartialEq, Eq)]
pub enum End {
    Finished,
    OneSubstep,
    NoProposal,
}

impl From<End> for u32 {
    ghost from_gives = { λ e n. n ≡ end_number e };

    // The number of an end over the boundary.
    fn from(end: End) -> u32 {
        match end {
            End::Finished => 0,
            End::OneSubstep => 1,
            End::NoProposal => 2,
        }
    }
}

// How a step ended, after how many substeps and with what time remaining.
#[derive(Clone, Copy, Debug, PartialEq)]
pub struct Lengths {
    pub end: End,
    pub count: usize,
    pub remaining: f32,
}

// One substep's length and the time that remains behind it.
#[derive(Clone, Copy, Debug, PartialEq)]
pub struct Substep {
    pub length: f32,
    pub remaining: f32,
}

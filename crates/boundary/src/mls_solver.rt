// The lengths of substeps over the boundary, all of a step or one at a time. What is lent is only read.
ghost use Rattle.std.specs.Prelude.{◌≡◌};
ghost use Rattle.lengths.specs.Lengths.{step_lengths, min_dt, substep, step_number, step_index, step_count, step_remaining, step_end, min_number, min_index, min_length, substep_number, substep_index, substep_length, substep_remaining};

// In place of a Result, which does not cross the C interface: a number of the table and an index; and, where these are 0, how many substeps the step has, what time remains, and how it ended: 0 finished, 1 after the one that was asked
// for, 2 for want of a proposal.
#[repr(C)]
#[derive(Clone, Copy)]
pub struct Lengths {
    pub number: u32,
    pub index: usize,
    pub count: usize,
    pub remaining: f32,
    pub end: u32,
}

// The same of one substep: its length, and what time remains behind it.
#[repr(C)]
#[derive(Clone, Copy)]
pub struct Substep {
    pub number: u32,
    pub index: usize,
    pub length: f32,
    pub remaining: f32,
}

// The same of the least length.
#[repr(C)]
#[derive(Clone, Copy)]
pub struct LeastLength {
    pub number: u32,
    pub index: usize,
    pub length: f32,
}

#[unsafe(no_mangle)]
pub extern "C" fn mk_min_dt(total: f32, max_num_substeps: u32) -> LeastLength
    ensures { let a = min_dt total max_num_substeps in (result.number ≡ min_number a) × (result.index ≡ min_index a) × (result.length ≡ min_length a) }
{
    match lengths::mls_solver::min_dt(total, max_num_substeps) {
        Ok(length) => LeastLength {
            number: 0,
            index: 0,
            length,
        },
        Err(e) => LeastLength {
            number: u32::from(e.rule),
            index: e.index,
            length: 0.0,
        },
    }
}

#[unsafe(no_mangle)]
pub extern "C" fn mk_step_lengths(
    total: f32,
    max_substep_dt: f32,
    max_num_substeps: u32,
    stop_after_one_substep: u32,
    proposals: usize,
    dts: &[f32],
) -> Lengths
    ensures { let a = step_lengths total max_substep_dt max_num_substeps stop_after_one_substep proposals dts.now in
        (result.number ≡ step_number a) × (result.index ≡ step_index a) × (result.count ≡ step_count a) × (result.remaining ≡ step_remaining a) × (result.end ≡ step_end a) }
{
    let a = lengths::mls_solver::step_lengths(
        total,
        max_substep_dt,
        max_num_substeps,
        stop_after_one_substep,
        proposals,
        dts,
    );
    match a {
        Ok(step) => Lengths {
            number: 0,
            index: 0,
            count: step.count,
            remaining: step.remaining,
            end: u32::from(step.end),
        },
        Err(e) => Lengths {
            number: u32::from(e.rule),
            index: e.index,
            count: 0,
            remaining: 0.0,
            end: 0,
        },
    }
}

#[unsafe(no_mangle)]
pub extern "C" fn mk_substep(
    remaining_time: f32,
    min_dt: f32,
    max_substep_dt: f32,
    dt: f32,
) -> Substep
    ensures { let a = substep remaining_time min_dt max_substep_dt dt in
        (result.number ≡ substep_number a) × (result.index ≡ substep_index a) × (result.length ≡ substep_length a) × (result.remaining ≡ substep_remaining a) }
{
    match lengths::mls_solver::substep(remaining_time, min_dt, max_substep_dt, dt) {
        Ok(taken) => Substep {
            number: 0,
            index: 0,
            length: taken.length,
            remaining: taken.remaining,
        },
        Err(e) => Substep {
            number: u32::from(e.rule),
            index: e.index,
            length: 0.0,
            remaining: 0.0,
        },
    }
}

// The lengths of a step's substeps, all at once or one at a time. The host proposes each length; one that is below the least is raised to it.
ghost use Rattle.std.specs.Prelude.{◌≡◌, cond, not, Some, None, [], ◌∷◌, eqb};
ghost use Rattle.grid.specs.Table.{all, finite, codes, is_flag};
ghost use Rattle.lengths.specs.Lengths.{min_of, allowed, raised, finished, one_done, walk, step_check, step_lengths, min_dt, substep};
ghost use Rattle.lengths.specs.declared.End.TheVariants.{Finished, OneSubstep};

use crate::{End, Lengths, Substep};
use grid::inner::{check_call, is_finite, refuse};
use grid::{Answer, Refusal, Rule};

// The least length, to which a proposal is raised: a host that has a loop of its own takes it from here.
#[tactic(auto, unfolding(crate::specs::Lengths::min_dt, crate::specs::Lengths::min_check))]
pub fn min_dt(total: f32, max_num_substeps: u32) -> Result<f32, Refusal>
    ensures { result ≡ min_dt total max_num_substeps }
{
    refuse(!is_finite(total), Rule::Setting, 0)?;
    refuse(max_num_substeps == 0, Rule::Code, 0)?;
    Ok(min_of(total, max_num_substeps))
}

// The same of settings that are good; of others it is what the division gives.
fn min_of(total: f32, max_num_substeps: u32) -> f32
    ensures { result ≡ min_of total max_num_substeps }
{
    total / numeric::from_u32(max_num_substeps)
}

// The substeps of a whole step, by the proposals `dts`, taken in order. Those past the step's end are not looked at. The settings are as a host passes them, the flag as a number:
// what is no flag is refused.
#[tactic(auto, unfolding(crate::specs::Lengths::step_lengths))]
pub fn step_lengths(
    total: f32,
    max_substep_dt: f32,
    max_num_substeps: u32,
    stop_after_one_substep: u32,
    proposals: usize,
    dts: &[f32],
) -> Result<Lengths, Refusal>
    ensures { result ≡ step_lengths total max_substep_dt max_num_substeps stop_after_one_substep proposals dts.now }
{
    check_step(
        total,
        max_substep_dt,
        max_num_substeps,
        stop_after_one_substep,
        proposals,
        dts.len(),
    )?;
    take_substeps(
        total,
        min_of(total, max_num_substeps),
        max_substep_dt,
        stop_after_one_substep != 0,
        dts,
    )
}

// What a step is refused for ahead of its proposals.
#[tactic(auto, unfolding(crate::specs::Lengths::step_check, grid::specs::Table::called))]
fn check_step(
    total: f32,
    max_substep_dt: f32,
    max_num_substeps: u32,
    stop_after_one_substep: u32,
    proposals: usize,
    dts: usize,
) -> Answer
    ensures { result ≡ step_check total max_substep_dt max_num_substeps stop_after_one_substep proposals dts }
{
    check_call(
        dts == proposals,
        Ok(()),
        is_finite(total) && is_finite(max_substep_dt),
        check_own(max_num_substeps, stop_after_one_substep),
    )
}

// The step's own settings in 4, as the host passed them.
fn check_own(max_num_substeps: u32, stop_after_one_substep: u32) -> Answer
    ensures { result ≡ codes (not (eqb max_num_substeps 0) ∷ is_flag stop_after_one_substep ∷ []) }
{
    let is_good = max_num_substeps != 0 && stop_after_one_substep <= 1;
    refuse(!is_good, Rule::Code, 0)
}

// Ends are looked at before each substep, and behind the last proposal.
fn take_substeps(
    total: f32,
    min_dt: f32,
    max_substep_dt: f32,
    stops_after_one: bool,
    dts: &[f32],
) -> Result<Lengths, Refusal>
    ensures { result ≡ walk stops_after_one min_dt max_substep_dt 0 total dts.now }
{
    let mut remaining = total;
    for (count, &dt) in dts.iter().enumerate() {
        if let Some(end) = end_after(stops_after_one, count, remaining) {
            return Ok(Lengths {
                end,
                count,
                remaining,
            });
        }
        refuse(
            !is_allowed(remaining, max_substep_dt, dt),
            Rule::Code,
            count,
        )?;
        remaining -= raise(remaining, min_dt, dt);
    }
    let count = dts.len();
    let end = end_after(stops_after_one, count, remaining).unwrap_or(End::NoProposal);
    Ok(Lengths {
        end,
        count,
        remaining,
    })
}

// The first end that holds after so many substeps: finished, or one substep done and asked for.
fn end_after(stops_after_one: bool, count: usize, remaining: f32) -> Option<End>
    ensures { result ≡ cond (finished remaining) (Some Finished) (cond (one_done stops_after_one count) (Some OneSubstep) None) }
{
    if !(0.0 < remaining) {
        Some(End::Finished)
    } else if stops_after_one && count != 0 {
        Some(End::OneSubstep)
    } else {
        None
    }
}

// One substep: a host that wants to look at its particles between substeps proposes by this.
#[tactic(auto, unfolding(crate::specs::Lengths::substep, crate::specs::Lengths::substep_check))]
pub fn substep(
    remaining_time: f32,
    min_dt: f32,
    max_substep_dt: f32,
    dt: f32,
) -> Result<Substep, Refusal>
    ensures { result ≡ substep remaining_time min_dt max_substep_dt dt }
{
    refuse(
        !are_finite(remaining_time, min_dt, max_substep_dt),
        Rule::Setting,
        0,
    )?;
    refuse(
        !is_allowed(remaining_time, max_substep_dt, dt),
        Rule::Code,
        0,
    )?;
    let length = raise(remaining_time, min_dt, dt);
    Ok(Substep {
        length,
        remaining: remaining_time - length,
    })
}

// Whether each time that a substep is given beside its proposal is finite.
fn are_finite(remaining_time: f32, min_dt: f32, max_substep_dt: f32) -> bool
    ensures { result ≡ all finite (remaining_time ∷ min_dt ∷ max_substep_dt ∷ []) }
{
    is_finite(remaining_time) && is_finite(min_dt) && is_finite(max_substep_dt)
}

// Whether a proposal keeps its rule.
#[tactic(auto, unfolding(crate::specs::Lengths::allowed))]
fn is_allowed(remaining_time: f32, max_substep_dt: f32, dt: f32) -> bool
    ensures { result ≡ allowed remaining_time max_substep_dt dt }
{
    0.0 < dt && dt <= remaining_time && dt <= max_substep_dt
}

// A proposal below the least length is raised to it, where more than that remains.
#[tactic(auto, unfolding(crate::specs::Lengths::raised))]
fn raise(remaining_time: f32, min_dt: f32, dt: f32) -> f32
    ensures { result ≡ raised remaining_time min_dt dt }
{
    if dt < min_dt && min_dt < remaining_time {
        min_dt
    } else {
        dt
    }
}

// The refusals of a run, and its slots one after the other.
ghost use Rattle.std.specs.Prelude.{◌≡◌, ◌++◌, ◌*◌, ◌+◌, ◌^◌, ◌<◌, ◌≤◌, IfOk, length, drop};
ghost use Rattle.dispatch.specs.Run.{said, standing, course, outcome, ready, roomy, in_time};

use crate::fits::FitPlan;
use crate::{Refusal, Setting, State};
use plans::Plan;

// 2^40.
const LIMIT: u64 = 1 << 40;

// The plan as one that fits, or 16, then 17, then 15.
#[tactic(auto, unfolding(crate::specs::Run::outcome, crate::specs::Run::ready))]
pub fn admit(
    plan: Plan,
    state: &State,
    k: usize,
    declines: usize,
    room: usize,
) -> Result<FitPlan, Refusal>
    ensures outcome { said result ≡ outcome plan (standing state.now) k declines room }
    ensures plan { IfOk result (λ p. p.plan ≡ plan) }
{
    let fit = FitPlan::new(plan)?;
    if !is_ready(&fit, state) {
        return Err(Refusal::Unfit);
    }
    if !is_roomy(&fit, k, declines, room) {
        return Err(Refusal::Misfit);
    }
    if !is_in_time(state.clock, k) {
        return Err(Refusal::Beyond);
    }
    Ok(fit)
}

// Whether the state is fit too.
#[tactic(auto, unfolding(crate::specs::Run::ready))]
fn is_ready(fit: &FitPlan, state: &State) -> bool
    ensures { result ≡ ready fit.now.plan (standing state.now) }
{
    state.clock <= LIMIT && fit.are_within(&state.left)
}

// Whether the inputs are equally long, and there is room for k answers of each supply.
#[tactic(auto, using(crate::proofs::Refusals::room_shared, crate::proofs::Refusals::unequal_refused))]
fn is_roomy(fit: &FitPlan, k: usize, declines: usize, room: usize) -> bool
    ensures { result ≡ roomy fit.now.plan k declines room }
{
    k == declines && k <= room / fit.plan.cores
}

// Whether k slots from this clock on end in time.
#[tactic(auto, unfolding(crate::specs::Run::in_time))]
fn is_in_time(clock: u64, k: usize) -> bool
    ensures { result ≡ in_time clock k }
{
    clock.saturating_add(k as u64) <= LIMIT
}

// The slots of a run whose inputs fit: the state after them, and their answers at the front of `out`.
pub fn give(
    setting: Setting,
    plan: FitPlan,
    state: &mut State,
    supplies: &[u8],
    declines: &[u64],
    out: &mut [u8],
)
    requires equal { length supplies.now ≡ length declines.now }
    requires room { length supplies.now * plan.plan.cores ≤ length out.old }
    requires time { state.old.clock + length supplies.now ≤ 2 ^ 40 }
    ensures left { state.new.left ≡ (course setting plan.plan (standing state.old) supplies.now declines.now).left }
    ensures clock { state.new.clock ≡ state.old.clock + length supplies.now }
    ensures buffer { out.new ≡
        (course setting plan.plan (standing state.old) supplies.now declines.now).answers ++
        drop (length supplies.now * plan.plan.cores) out.old }
{
    let cores = plan.plan.cores;
    for (i, supplied) in supplies.iter().enumerate() {
        let grants = crate::walks::serve(setting, plan, state, *supplied, declines[i]);
        out[i * cores..(i + 1) * cores].copy_from_slice(&grants[..cores]);
    }
}

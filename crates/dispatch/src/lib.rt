// Giving out slots: state, fresh start, run and step. Document 01, "Giving out slots". Plan value, state and buffers may hold anything: what does not
// fit is refused, the state stays as it was given, and nothing is written. The sentences are in specs/.
#![tactic(auto)]

ghost use Rattle.std.specs.Prelude.{◌≡◌, length};
ghost use Rattle.dispatch.specs.Run.{standing, fresh_end, run_end, step_end, started, ran, out_after, stepped};

mod counts;
mod fits;
mod hosts;
mod picks;
mod runs;
mod walks;

use fits::FitPlan;
use plans::Plan;

// The switch: a slot that nobody under a host takes is wasted, or goes to the next sibling. Document 02, request 12.
#[derive(Clone, Copy, Debug, PartialEq, Eq)]
pub enum Setting {
    Off,
    On,
}

// The clock, and for each node the slots left in its current served period.
#[derive(Clone, Copy, Debug, PartialEq, Eq)]
pub struct State {
    pub clock: u64,
    pub left: [u16; 64],
}

// Why a call is refused: `number` of specs/Run.antt gives document 01's number for each.
#[derive(Clone, Copy, Debug, PartialEq, Eq)]
pub enum Refusal {
    // A slot lies beyond 2^40.
    Beyond,
    // State or plan value not fit.
    Unfit,
    // Buffer lengths don't fit.
    Misfit,
}

// A fresh start.
#[tactic(auto, unfolding(crate::specs::Run::started))]
pub fn fresh(plan: Plan) -> Result<State, Refusal>
    ensures { fresh_end result ≡ started plan }
{
    let plan = FitPlan::new(plan)?;
    let left = plan.fresh_left();
    Ok(State { clock: 0, left })
}

// A run of as many slots as there are supply bytes, all with one setting; each takes its decline word, and its answers go to `out`, slot by slot. What is
// refused leaves `state` and `out` as they were.
#[tactic(auto, using(crate::proofs::Refusals::done_facts, crate::proofs::Running::run_ends))]
pub fn run(
    setting: Setting,
    plan: Plan,
    state: &mut State,
    supplies: &[u8],
    declines: &[u64],
    out: &mut [u8],
) -> Result<(), Refusal>
    ensures result { run_end result state.new ≡ ran setting plan (standing state.old) supplies.now declines.now (length out.old) }
    ensures buffer { out.new ≡ out_after setting plan (standing state.old) supplies.now declines.now out.old }
{
    let plan = runs::admit(plan, state, supplies.len(), declines.len(), out.len())?;
    runs::give(setting, plan, state, supplies, declines, out);
    Ok(())
}

// A run of one slot, with its answers by value.
#[tactic(auto, using(crate::proofs::Refusals::done_facts, crate::proofs::Running::step_ends))]
pub fn step(
    setting: Setting,
    plan: Plan,
    state: &mut State,
    supplied: u8,
    declines: u64,
) -> Result<[u8; 8], Refusal>
    ensures { step_end result state.new ≡ stepped setting plan (standing state.old) supplied declines }
{
    let plan = runs::admit(plan, state, 1, 1, 8)?;
    Ok(walks::serve(setting, plan, state, supplied, declines))
}

// Giving out slots from numbers: those out of their fields are answered as an unfit value is.
ghost use Rattle.std.specs.Prelude.{◌≡◌, ◌&&◌, true, false, Ok, Err, None, MatchResult, cond, length};
ghost use Rattle.dispatch.specs.Run.{standing};
ghost use Rattle.numbers.specs.Numbers.{plan_of_numbers, state_given, is_state};
ghost use Rattle.exports.specs.Exports.{told, answers_of, is_setting, setting_numbered, are_whole, stepped_by, keeping, freshening, stepping, running};

use crate::refusals::{BAD_KIND, Refusal, UNFIT, lengths};
use dispatch::{Setting, State};
use plans::Plan;

// A fresh state, and zeros where the plan value is refused.
#[tactic(auto, unfolding(crate::specs::Exports::freshening, crate::specs::Exports::are_whole))]
pub fn fresh(plan: &[u32], state: &mut [u64]) -> Result<(), Refusal>
    ensures { (told result, state.new) ≡ freshening plan.now state.old }
{
    lengths(are_whole(plan, state))?;
    state.fill(0);
    numbers::put_state(dispatch::fresh(numbers::plan_of(plan))?, state);
    Ok(())
}

// One slot: the state goes on, and the eight answers are laid down, of 255 where it is refused.
#[tactic(auto, unfolding(crate::specs::Exports::stepping, crate::specs::Exports::are_whole))]
pub fn step(
    setting: u8,
    plan: &[u32],
    state: &mut [u64],
    supplied: u8,
    declines: u64,
    grants: &mut [u8],
) -> Result<(), Refusal>
    ensures { (told result, state.new, grants.new) ≡
        stepping setting plan.now state.old supplied declines grants.old }
{
    lengths(are_whole(plan, state) && grants.len() == 8)?;
    grants.fill(255);
    grants.copy_from_slice(&stepped(setting, plan, state, supplied, declines)?);
    Ok(())
}

// The answers of a slot. The state goes on where it is not refused.
#[tactic(auto, unfolding(crate::specs::Exports::stepped_by, crate::specs::Exports::by_numbers, numbers::specs::Numbers::state_given))]
fn stepped(
    setting: u8,
    plan: &[u32],
    state: &mut [u64],
    supplied: u8,
    declines: u64,
) -> Result<[u8; 8], Refusal>
    requires { length state.old ≡ 65 }
    ensures kept { let s = stepped_by setting plan.now state.old supplied declines in (told result, state.new) ≡ keeping s.outcome s.state state.old }
    ensures answers { answers_of result ≡
        (stepped_by setting plan.now state.old supplied declines).grants }
{
    let (setting, plan, mut standing) = values_of(setting, plan, state)?;
    let grants = dispatch::step(setting, plan, &mut standing, supplied, declines)?;
    numbers::put_state(standing, state);
    Ok(grants)
}

// As many slots as there are supply bytes: the state goes on by them, and their answers are laid down.
#[tactic(auto, unfolding(crate::specs::Exports::running, crate::specs::Exports::are_whole, crate::specs::Exports::ran_by, crate::specs::Exports::out_by, crate::specs::Exports::by_numbers, numbers::specs::Numbers::state_given))]
pub fn run(
    setting: u8,
    plan: &[u32],
    state: &mut [u64],
    supplies: &[u8],
    declines: &[u64],
    out: &mut [u8],
) -> Result<(), Refusal>
    ensures { (told result, state.new, out.new) ≡
        running setting plan.now state.old supplies.now declines.now out.old }
{
    lengths(are_whole(plan, state))?;
    let (setting, plan, mut standing) = values_of(setting, plan, state)?;
    dispatch::run(setting, plan, &mut standing, supplies, declines, out)?;
    numbers::put_state(standing, state);
    Ok(())
}

// The values that numbers say. The setting is looked at first, then the state.
// It takes no closure for the call after that: this would save a step and a run one line each, and its contract would have to speak of the closure's.
#[tactic(auto, unfolding(crate::specs::Exports::is_setting, crate::specs::Exports::setting_numbered, numbers::specs::Numbers::state_given))]
fn values_of(setting: u8, plan: &[u32], state: &[u64]) -> Result<(Setting, Plan, State), Refusal>
    ensures { MatchResult result
        (λ v. (is_setting setting ≡ true) × (v.0 ≡ setting_numbered setting) × (v.1 ≡ plan_of_numbers plan.now) × (state_given state.now ≡ (true, standing v.2)))
        (λ r. (r ≡ record { number = cond (is_setting setting) 16 5; place = None }) × ((is_setting setting && is_state state.now) ≡ false)) }
{
    let setting = setting_of(setting)?;
    let standing = numbers::state_of(state).ok_or(UNFIT)?;
    Ok((setting, numbers::plan_of(plan), standing))
}

// Whether a plan and a state have the lengths that they are to have.
#[tactic(auto, unfolding(crate::specs::Exports::are_whole))]
fn are_whole(plan: &[u32], state: &[u64]) -> bool
    ensures { result ≡ are_whole plan.now state.now }
{
    plan.len() == 533 && state.len() == 65
}

// Setting 0 or 1. Another has no place, as a call has one setting.
#[tactic(auto, unfolding(crate::specs::Exports::is_setting, crate::specs::Exports::setting_numbered))]
fn setting_of(b: u8) -> Result<Setting, Refusal>
    ensures { result ≡
        cond (is_setting b) (Ok (setting_numbered b)) (Err (record { number = BAD_KIND; place = None })) }
{
    match b {
        0 => Ok(Setting::Off),
        1 => Ok(Setting::On),
        _ => Err(Refusal {
            number: BAD_KIND,
            place: None,
        }),
    }
}

// Rules 11 to 14 and 20 on a plan value: document 01, "Rules beyond the bytes" and the order of "Refusal numbers", with document 02, requests 2 and 6. Any
// value may be asked about.
// Fit says what it is to keep them and Broken which breach comes first (specs/); the calls below are held to Check.
#![tactic(auto)]

ghost use Rattle.std.specs.Prelude.{◌≡◌};
ghost use Rattle.answers.specs.Answers.{answered};
ghost use Rattle.rules.specs.Check.{checked, is_fit};

mod family;
mod loads;
mod nodes;
mod parents;

use answers::Refusal;
use family::SoundPlan;
use plans::Plan;

// Whether a value fits.
#[tactic(auto, unfolding(crate::specs::Check::is_fit, answers::specs::Answers::accepts))]
pub fn is_fit(plan: Plan) -> bool
    ensures { result ≡ is_fit plan }
{
    check(plan).is_ok()
}

// The first broken rule of a value that keeps 2 to 7 and 19, with its place; 16 for one that does not.
#[tactic(auto, using(crate::proofs::Order::sound_checked, crate::proofs::Order::unsound_refused), unfolding(crate::specs::Check::rules, answers::specs::Answers::first))]
pub fn check(plan: Plan) -> Result<(), Refusal>
    ensures { answered result ≡ checked plan }
{
    if !plans::is_sound(plan) {
        return Err(Refusal::Unfit);
    }
    nodes::check_nodes(&plan)?;
    let plan = SoundPlan { plan };
    plan.check_supplies()?;
    plan.check_hosts()
}

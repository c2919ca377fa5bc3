// A plan value that is known to fit.
ghost use Rattle.std.specs.Prelude.{◌≡◌, ◌<◌, ◌≤◌, true, false, MatchResult};
ghost use Rattle.rules.specs.Check.{is_fit};
ghost use Rattle.dispatch.specs.declared.Refusal.TheVariants.{Unfit};

use crate::Refusal;
use plans::Plan;

// Where there is one of these nothing about the plan has to be asked again.
#[derive(Clone, Copy)]
pub struct FitPlan {
    pub plan: Plan,
    ghost fit: { is_fit plan ≡ true },
    ghost nodes: { plan.size ≤ 64 },
    ghost some: { 0 < plan.cores },
    ghost cores: { plan.cores ≤ 8 },
}

impl FitPlan {
    #[tactic(auto, using(crate::proofs::Fitting::fit_size, crate::proofs::Fitting::fit_core, crate::proofs::Fitting::fit_cores))]
    pub fn new(plan: Plan) -> Result<FitPlan, Refusal>
        ensures { MatchResult result (λ p. (p.plan ≡ plan) × (is_fit plan ≡ true)) (λ r. (r ≡ Unfit) × (is_fit plan ≡ false)) }
    {
        if rules::is_fit(plan) {
            Ok(FitPlan { plan })
        } else {
            Err(Refusal::Unfit)
        }
    }
}

// The hosts under which somebody takes the slot: document 02, request 12.
ghost use Rattle.std.specs.Prelude.{◌≡◌, ◌<◌};
ghost use Rattle.plans.specs.declared.Parent.TheVariants.{Node as Under};
ghost use Rattle.dispatch.specs.View.{view_of};
ghost use Rattle.dispatch.specs.Choice.{eligible};
ghost use Rattle.dispatch.specs.Words.{told, passed_by, Tells, WithBits};
ghost use Rattle.dispatch.specs.declared.Setting.TheVariants.{On};

use crate::Setting;
use crate::fits::FitPlan;
use crate::picks::Round;
use plans::Parent;

impl Round {
    // A round over these counts. Its word of takers has a bit for each host which is not passed over: with the switch off for all of them.
    pub fn new(setting: Setting, plan: FitPlan, left: &[u16; 64], declines: u64) -> Round
        ensures plan { result.plan ≡ plan }
        ensures tells { Tells setting (view_of plan.plan) left.now declines (passed_by result) }
    {
        let takers = match setting {
            Setting::Off => u64::MAX,
            Setting::On => takers(plan, left, declines),
        };
        Round {
            plan,
            declines,
            takers,
        }
    }

    // The takers with node i's host too, where node i takes the slot.
    fn with_node(&self, left: &[u16; 64], i: usize) -> u64
        requires { i < self.now.plan.plan.size }
        ensures { WithBits self.now.takers (λ h. eligible (view_of self.now.plan.plan) left.now (passed_by self.now) (Under h) i) result }
    {
        let Parent::Node(host) = plans::node_at(&self.plan.plan, i).parent else {
            return self.takers;
        };
        if self.takes(left, i) {
            self.takers | (1 << host)
        } else {
            self.takers
        }
    }
}

// From the last node down: whether somebody takes the slot under a host is told before the host's own turn.
fn takers(plan: FitPlan, left: &[u16; 64], declines: u64) -> u64
    ensures { Tells On (view_of plan.plan) left.now declines (told (view_of plan.plan) declines result) }
{
    let mut takers = 0;
    for i in (0..plan.plan.size).rev() {
        let round = Round {
            plan,
            declines,
            takers,
        };
        takers = round.with_node(left, i);
    }
    takers
}

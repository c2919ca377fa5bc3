// One slot: refill, then for each supplied core the walk from its supply through hosts to a leaf.
ghost use Rattle.std.specs.Prelude.{◌≡◌, ◌+◌, ◌^◌, ◌<◌};
ghost use Rattle.dispatch.specs.View.{view_of};
ghost use Rattle.dispatch.specs.Words.{passed_by};
ghost use Rattle.dispatch.specs.Slot.{walk_end, slot_end, walk, slot};

use crate::fits::FitPlan;
use crate::picks::{Round, is_set};
use crate::{Setting, State};
use plans::Parent;

const IDLE: u8 = 254;

const UNSUPPLIED: u8 = 255;

// No node of a plan stands deeper.
const LEVELS: usize = 8;

// The slot at the clock: the answers of its cores in supply order, and the state after it.
#[tactic(auto, using(crate::proofs::Walking::serve_steps), unfolding(crate::specs::Slot::granting))]
pub fn serve(
    setting: Setting,
    plan: FitPlan,
    state: &mut State,
    supplied: u8,
    declines: u64,
) -> [u8; 8]
    requires { state.old.clock < 2 ^ 40 }
    ensures slot { slot_end result state.new.left ≡ slot setting (view_of plan.plan) plan.plan.cores state.old.clock supplied declines state.old.left }
    ensures clock { state.new.clock ≡ state.old.clock + 1 }
{
    plan.refill(state.clock, &mut state.left);
    let round = Round::new(setting, plan, &state.left, declines);
    let mut grants = [UNSUPPLIED; 8];
    for s in 0..plan.plan.cores {
        if is_set(u64::from(supplied), s) {
            grants[s] = round.walk(LEVELS, Parent::Supply(s as u8), &mut state.left);
        }
    }
    state.clock += 1;
    grants
}

impl Round {
    // The walk down from parent x, with so many levels to go: its grant, with everyone taken on the way charged.
    #[tactic(auto, using(crate::proofs::Walking::walk_steps), unfolding(crate::specs::Slot::follow, crate::specs::Slot::charge, crate::specs::View::is_leaf))]
    fn walk(&self, levels: usize, x: Parent, left: &mut [u16; 64]) -> u8
        ensures { walk_end result left.new ≡ walk (view_of self.now.plan.plan) (passed_by self.now) levels x left.old }
    {
        if levels == 0 {
            return IDLE;
        }
        let Some(i) = self.choice(left, x) else {
            return IDLE;
        };
        left[i] -= 1;
        if plans::is_host(&self.plan.plan, i) {
            self.walk(levels - 1, Parent::Node(i as u8), left)
        } else {
            i as u8
        }
    }
}

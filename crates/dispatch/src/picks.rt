// The choice among a parent's children, and the two words that tell who is passed over: `declines` by its bits of leaves, `takers` by its bits of hosts.
ghost use Rattle.std.specs.Prelude.{◌≡◌, ◌<◌, cond, IfSome};
ghost use Rattle.dispatch.specs.View.{bit_of, served_t, view_of};
ghost use Rattle.dispatch.specs.Choice.{just, picked, choose, eligible, prefer, takes as takes_by};
ghost use Rattle.dispatch.specs.Words.{passed_by};

use crate::fits::FitPlan;
use plans::Parent;

// What does not change while a slot is given out.
#[derive(Clone, Copy)]
pub struct Round {
    pub plan: FitPlan,
    pub declines: u64,
    pub takers: u64,
}

impl Round {
    // The smallest served T, then the lowest number.
    #[tactic(auto, using(crate::proofs::Choosing::choose_steps))]
    pub fn choice(&self, left: &[u16; 64], x: Parent) -> Option<usize>
        ensures there { IfSome result (λ i. i < self.now.plan.plan.size) }
        ensures chosen { picked result ≡ choose (view_of self.now.plan.plan) left.now (passed_by self.now) x }
    {
        let mut best = None;
        for i in 0..self.plan.plan.size {
            if self.is_eligible(left, x, i) && self.is_preferred(best, i) {
                best = Some(i);
            }
        }
        best
    }

    // Whether node i comes before the choice among the nodes before it.
    #[tactic(auto, unfolding(crate::specs::Choice::prefer))]
    fn is_preferred(&self, best: Option<usize>, i: usize) -> bool
        ensures { prefer (view_of self.now.plan.plan) (picked best) i ≡ cond result (just i) (picked best) }
    {
        best.is_none_or(|j| self.period(i) < self.period(j))
    }

    #[tactic(auto, unfolding(crate::specs::View::served_t))]
    fn period(&self, i: usize) -> u16
        ensures { result ≡ served_t self.now.plan.plan i }
    {
        plans::node_at(&self.plan.plan, i).served.t
    }

    #[tactic(auto, unfolding(crate::specs::Choice::eligible, plans::specs::Plan::is_child))]
    fn is_eligible(&self, left: &[u16; 64], x: Parent, i: usize) -> bool
        requires { i < 64 }
        ensures { result ≡ eligible (view_of self.now.plan.plan) left.now (passed_by self.now) x i }
    {
        plans::is_child(&self.plan.plan, x, i) && self.takes(left, i)
    }

    // Whether node i has slots left and is not passed over.
    #[tactic(auto, unfolding(crate::specs::Choice::takes))]
    pub fn takes(&self, left: &[u16; 64], i: usize) -> bool
        requires { i < 64 }
        ensures { result ≡ takes_by left.now (passed_by self.now) i }
    {
        left[i] > 0 && !self.is_passed(i)
    }

    #[tactic(auto, unfolding(crate::specs::Words::told, crate::specs::View::is_leaf))]
    fn is_passed(&self, i: usize) -> bool
        requires { i < 64 }
        ensures { result ≡ passed_by self.now i }
    {
        if plans::is_host(&self.plan.plan, i) {
            !is_set(self.takers, i)
        } else {
            is_set(self.declines, i)
        }
    }
}

// Bit i of a word.
pub fn is_set(word: u64, i: usize) -> bool
    requires { i < 64 }
    ensures { result ≡ bit_of word i }
{
    (word >> i) & 1 == 1
}

// The slots that nodes have left: fresh, refilled, and whether they are within their served C.
ghost use Rattle.std.specs.Prelude.{◌≡◌, ◌<◌, ◌≤◌, ◌↔◌, ℕ, IsTrue, get_or};
ghost use Rattle.dispatch.specs.View.{served_c, view_of};
ghost use Rattle.dispatch.specs.Slot.{due, refilled};
ghost use Rattle.dispatch.specs.Run.{fresh_left};

use crate::fits::FitPlan;

impl FitPlan {
    // Each node's served C.
    #[tactic(auto, using(crate::proofs::Counting::fresh_steps), unfolding(crate::specs::View::served_c))]
    pub fn fresh_left(&self) -> [u16; 64]
        ensures { result ≡ fresh_left (view_of self.now.plan) }
    {
        let mut full = [0; 64];
        for i in 0..self.plan.size {
            full[i] = plans::node_at(&self.plan, i).served.c;
        }
        full
    }

    // Each node whose served period begins at slot n gets its served C.
    #[tactic(auto, using(crate::proofs::Counting::refill_steps), unfolding(crate::specs::View::served_c))]
    pub fn refill(&self, n: u64, left: &mut [u16; 64])
        ensures { left.new ≡ refilled (view_of self.now.plan) n left.old }
    {
        for i in 0..self.plan.size {
            if self.is_due(n, i) {
                left[i] = plans::node_at(&self.plan, i).served.c;
            }
        }
    }

    // Whether node i's served period begins at slot n.
    #[tactic(auto, using(crate::proofs::Fitting::fit_period), unfolding(crate::specs::Slot::due, crate::specs::View::served_t))]
    fn is_due(&self, n: u64, i: usize) -> bool
        requires { i < self.now.plan.size }
        ensures { result ≡ due (view_of self.now.plan) n i }
    {
        n % u64::from(plans::node_at(&self.plan, i).served.t) == 0
    }

    // Whether no node has more left than its served C.
    #[tactic(auto, unfolding(crate::specs::View::served_c))]
    pub fn are_within(&self, left: &[u16; 64]) -> bool
        ensures { IsTrue result ↔ ((i : ℕ) → i < self.now.plan.size → get_or left.now i 0 ≤ served_c self.now.plan i) }
    {
        (0..self.plan.size).all(|i| left[i] <= plans::node_at(&self.plan, i).served.c)
    }
}

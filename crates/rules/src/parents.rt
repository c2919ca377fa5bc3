// Rules 12 and 13 under a parent, and all parents in their order.
ghost use Rattle.std.specs.Prelude.{◌≡◌, true, ◌<◌, ◌||◌, ◌%◌, eqb};
ghost use Rattle.answers.specs.Answers.{answered, each};
ghost use Rattle.plans.specs.Plan.{is_child, served_of, own_type};
ghost use Rattle.plans.specs.Sound.{all, sound};
ghost use Rattle.rules.specs.Check.{alike, check_parent, check_supply, check_host, twelve_at, thirteen_at};
ghost use Rattle.rules.specs.Fit.{is_whole};

use crate::family::{Family, SoundPlan};
use crate::loads::is_whole;
use answers::{Refusal, Rule};
use meaning::SlotType;
use plans::Parent;

impl SoundPlan {
    // All supplies, in number order.
    pub fn check_supplies(&self) -> Result<(), Refusal>
        ensures { answered result ≡ each (check_supply self.now.plan) self.now.plan.cores }
    {
        answers::each(self.plan.cores, |s| self.check_supply(s))
    }

    // All hosts, in number order.
    pub fn check_hosts(&self) -> Result<(), Refusal>
        ensures { answered result ≡ each (check_host self.now.plan) self.now.plan.size }
    {
        answers::each(self.plan.size, |h| self.check_host(h))
    }

    // Supply s as a parent.
    #[tactic(auto, using(crate::proofs::Order::supply_formed), unfolding(crate::specs::Check::check_supply))]
    fn check_supply(&self, s: usize) -> Result<(), Refusal>
        requires { s < self.now.plan.cores }
        ensures { answered result ≡ check_supply self.now.plan s }
    {
        Family {
            plan: self.plan,
            parent: Parent::Supply(s as u8),
        }
        .check()
    }

    // Node h as a parent, where it is a host.
    #[tactic(auto, using(crate::proofs::Order::host_formed), unfolding(crate::specs::Check::check_host))]
    fn check_host(&self, h: usize) -> Result<(), Refusal>
        requires { h < self.now.plan.size }
        ensures { answered result ≡ check_host self.now.plan h }
    {
        if !plans::is_host(&self.plan, h) {
            return Ok(());
        }
        Family {
            plan: self.plan,
            parent: Parent::Node(h as u8),
        }
        .check()
    }
}

impl Family {
    // 12, then 13, then 14.
    #[tactic(auto, unfolding(crate::specs::Check::check_parent, answers::specs::Answers::first))]
    pub fn check(&self) -> Result<(), Refusal>
        ensures { answered result ≡ check_parent self.now.plan self.now.parent }
    {
        let size = self.plan.size;
        answers::each(size, |i| self.twelve_at(i))?;
        answers::each(size, |i| self.thirteen_at(i))?;
        self.check_fourteen()
    }

    // Whether node i is a child, and its served type.
    pub fn has(&self, i: usize) -> bool
        ensures { result ≡ is_child self.now.plan self.now.parent i }
    {
        plans::is_child(&self.plan, self.parent, i)
    }

    pub fn served(&self, i: usize) -> SlotType
        ensures { result ≡ served_of self.now.plan i }
    {
        plans::node_at(&self.plan, i).served
    }

    // The type that the parent has to give.
    pub fn own(&self) -> SlotType
        ensures { result ≡ own_type self.now.plan self.now.parent }
    {
        plans::own_type(&self.plan, self.parent)
    }

    // It is no child, or keeps rule 12.
    #[tactic(auto, unfolding(crate::specs::Check::twelve_at))]
    fn twelve_at(&self, i: usize) -> Result<(), Refusal>
        ensures { answered result ≡ twelve_at self.now.plan self.now.parent i }
    {
        answers::tested(!self.has(i) || self.is_multiple(i), Rule::Multiple, i)
    }

    // Rule 12 at node i: a child's served period is a multiple of the parent's, where that is not whole.
    #[tactic(auto, using(crate::proofs::Formed::formed_positive))]
    fn is_multiple(&self, i: usize) -> bool
        ensures { result ≡ (is_whole (own_type self.now.plan self.now.parent) ||
            eqb ((served_of self.now.plan i).t % (own_type self.now.plan self.now.parent).t) 0) }
    {
        let own = self.own();
        is_whole(own) || self.served(i).t % own.t == 0
    }

    // Rule 13 at node i: it is no child, or at odds with no earlier one.
    #[tactic(auto, unfolding(crate::specs::Check::thirteen_at))]
    fn thirteen_at(&self, i: usize) -> Result<(), Refusal>
        requires { i < self.now.plan.size }
        ensures { answered result ≡ thirteen_at self.now.plan self.now.parent i }
    {
        answers::tested(!self.has(i) || self.are_alike(i), Rule::Alike, i)
    }

    // Whether node i is at odds with no earlier child.
    fn are_alike(&self, i: usize) -> bool
        requires { i < self.now.plan.size }
        ensures { result ≡ all (alike self.now.plan self.now.parent i) i }
    {
        (0..i).all(|j| self.is_alike(i, j))
    }

    // Whether node j is no child, or of the periods of i and j one divides the other.
    #[tactic(auto, using(crate::proofs::Formed::served_positive), unfolding(crate::specs::Check::alike))]
    fn is_alike(&self, i: usize, j: usize) -> bool
        requires { (i < self.now.plan.size) × (j < self.now.plan.size) }
        ensures { result ≡ alike self.now.plan self.now.parent i j }
    {
        if !self.has(j) {
            return true;
        }
        let a = self.served(i).t;
        let b = self.served(j).t;
        a % b == 0 || b % a == 0
    }
}

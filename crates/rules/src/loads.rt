// Rule 14 under a parent: what its children ask for in M slots, summed in node order, against its own side. Document 02, request 2: a whole parent gives
// every slot.
ghost use Rattle.std.specs.Prelude.{◌≡◌, true, ◌+◌, ◌*◌, ◌/◌, ◌<◌};
ghost use Rattle.meaning.specs.Types.{well_formed};
ghost use Rattle.answers.specs.Answers.{answered, each};
ghost use Rattle.rules.specs.Check.{fourteen_at};
ghost use Rattle.rules.specs.Fit.{is_whole, owes, child_period, longest, load, load_to, side};

use crate::family::Family;
use answers::{Refusal, Rule};
use meaning::SlotType;

impl Family {
    // Rule 14 over all nodes, of which only the children matter.
    pub fn check_fourteen(&self) -> Result<(), Refusal>
        ensures { answered result ≡ each (fourteen_at self.now.plan self.now.parent) self.now.plan.size }
    {
        let m = self.longest_period();
        let most = owed_in(self.own(), m);
        let mut sum: u64 = 0;
        for i in 0..self.plan.size {
            sum += self.load_of(m, i);
            self.fourteen_at(i, sum, most)?;
        }
        Ok(())
    }

    // Rule 14 at node i, where `sum` is what the children up to it ask for and `most` is the parent's side.
    #[tactic(auto, unfolding(crate::specs::Check::fourteen_at))]
    fn fourteen_at(&self, i: usize, sum: u64, most: u64) -> Result<(), Refusal>
        requires { (sum ≡ load_to self.now.plan self.now.parent (i + 1)) × (most ≡ side self.now.plan self.now.parent) }
        ensures { answered result ≡ fourteen_at self.now.plan self.now.parent i }
    {
        answers::tested(!self.has(i) || sum <= most, Rule::Load, i)
    }

    // M, the largest served period among the children.
    #[tactic(auto, using(crate::proofs::Sums::longest_more), unfolding(crate::specs::Fit::longest, meaning::specs::Sums::most_to))]
    fn longest_period(&self) -> u16
        ensures { result ≡ longest self.now.plan self.now.parent }
    {
        let mut most = 0;
        for i in 0..self.plan.size {
            most = most.max(self.period_of(i));
        }
        most
    }

    // Node i's served period where it is a child, and 0 elsewhere.
    #[tactic(auto, unfolding(crate::specs::Fit::child_period))]
    fn period_of(&self, i: usize) -> u16
        ensures { result ≡ child_period self.now.plan self.now.parent i }
    {
        if self.has(i) { self.served(i).t } else { 0 }
    }

    // What node i asks of its parent in m slots: 0 where it is no child.
    #[tactic(auto, using(crate::proofs::Formed::served_formed), unfolding(crate::specs::Fit::load))]
    fn load_of(&self, m: u16, i: usize) -> u64
        requires { i < self.now.plan.size }
        ensures { result ≡ load self.now.plan self.now.parent m i }
    {
        if self.has(i) {
            in_slots(self.served(i), m)
        } else {
            0
        }
    }
}

// Whether a parent of this type gives all slots.
#[tactic(auto, unfolding(crate::specs::Fit::is_whole))]
pub fn is_whole(own: SlotType) -> bool
    ensures { result ≡ is_whole own }
{
    own.c == own.t
}

// What a parent of this type owes in m slots.
#[tactic(auto, unfolding(crate::specs::Fit::owes))]
fn owed_in(own: SlotType, m: u16) -> u64
    requires { well_formed own ≡ true }
    ensures { result ≡ owes own m }
{
    if is_whole(own) {
        u64::from(m)
    } else {
        in_slots(own, m)
    }
}

// What a type comes to in m slots, C·(m/T): at most m, so it does not wrap.
#[tactic(auto, using(crate::proofs::Formed::formed_positive, crate::proofs::Formed::in_slots_fits))]
fn in_slots(a: SlotType, m: u16) -> u64
    requires { well_formed a ≡ true }
    ensures { result ≡ a.c * (m / a.t) }
{
    u64::from(a.c) * u64::from(m / a.t)
}

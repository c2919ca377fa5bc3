// Who is whose parent, whether that is allowed, and how deep a node stands.
ghost use Rattle.std.specs.Prelude.{◌≡◌};
ghost use Rattle.plans.specs.Plan.{is_child};
ghost use Rattle.plans.specs.Sound.{parent_allowed, within};

use crate::lookup::{is_host, node_at};
use crate::{Parent, Plan};

// Whether node i is a child of parent x.
#[tactic(auto, unfolding(crate::specs::Plan::is_child, crate::specs::Plan::same))]
pub fn is_child(plan: &Plan, x: Parent, i: usize) -> bool
    ensures { result ≡ is_child plan.now x i }
{
    node_at(plan, i).parent == x
}

// Whether node i's parent is one that it may have: a supply that is there, or an earlier virtual host.
#[tactic(auto, unfolding(crate::specs::Sound::parent_allowed, crate::specs::Sound::allows))]
pub fn is_parent_allowed(plan: &Plan, i: usize) -> bool
    ensures { result ≡ parent_allowed plan.now i }
{
    match node_at(plan, i).parent {
        Parent::Supply(s) => usize::from(s) < plan.cores,
        Parent::Node(h) => usize::from(h) < i && is_host(plan, h.into()),
    }
}

// Whether node i's depth is at most eight: a supply is met within eight steps up.
#[tactic(auto, using(crate::proofs::Depth::within_step, crate::proofs::Depth::within_none), unfolding(crate::specs::Sound::up_to))]
pub fn is_within(plan: &Plan, i: usize) -> bool
    ensures { result ≡ within plan.now 8 i }
{
    let mut at = i;
    for _ in 0..8u8 {
        let Parent::Node(h) = node_at(plan, at).parent else {
            return true;
        };
        at = h.into();
    }
    false
}

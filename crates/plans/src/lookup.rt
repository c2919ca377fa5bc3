// The entries of a plan value, and what a node's entry says.
ghost use Rattle.std.specs.Prelude.{◌≡◌};
ghost use Rattle.plans.specs.Plan.{node_at, supply_at, wanted_as, is_host, is_soft, own_type};

use crate::{Node, NodeKind, Parent, Plan, ZERO_NODE, ZERO_TYPE};
use meaning::{Kind, SlotType};

// Node i, or one of zeros past the array's end.
#[tactic(auto, unfolding(crate::specs::Plan::node_at))]
pub fn node_at(plan: &Plan, i: usize) -> Node
    ensures { result ≡ node_at plan.now i }
{
    plan.nodes.get(i).copied().unwrap_or(ZERO_NODE)
}

// The type of supply i, or one of zeros past the array's end.
#[tactic(auto, unfolding(crate::specs::Plan::supply_at))]
pub fn supply_at(plan: &Plan, i: usize) -> SlotType
    ensures { result ≡ supply_at plan.now i }
{
    plan.supplies.get(i).copied().unwrap_or(ZERO_TYPE)
}

// Whether node i is a virtual host.
#[tactic(auto, unfolding(crate::specs::Plan::is_host, crate::specs::Plan::hosting))]
pub fn is_host(plan: &Plan, i: usize) -> bool
    ensures { result ≡ is_host plan.now i }
{
    node_at(plan, i).kind == NodeKind::Host
}

// Whether node i is soft: a leaf that may miss some of its windows.
#[tactic(auto, unfolding(crate::specs::Plan::is_soft))]
pub fn is_soft(plan: &Plan, i: usize) -> bool
    ensures { result ≡ is_soft plan.now i }
{
    !is_host(plan, i) && 0 < node_at(plan, i).misses.d
}

// As which kind a node's wanted type is meant: a sliding leaf's slides, and a host's is aligned.
#[tactic(auto, unfolding(crate::specs::Plan::wanted_as))]
pub fn wanted_as(kind: NodeKind) -> Kind
    ensures { result ≡ wanted_as kind }
{
    match kind {
        NodeKind::SlidingLeaf => Kind::Sliding,
        NodeKind::AlignedLeaf | NodeKind::Host => Kind::Aligned,
    }
}

// The type that a parent has to give: a supply's, or a host's wanted type.
#[tactic(auto, unfolding(crate::specs::Plan::own_type))]
pub fn own_type(plan: &Plan, x: Parent) -> SlotType
    ensures { result ≡ own_type plan.now x }
{
    match x {
        Parent::Supply(s) => supply_at(plan, s.into()),
        Parent::Node(h) => node_at(plan, h.into()).wanted,
    }
}

// The plan value, and refusals 2 to 7 and 19 on a value: document 01, "The plan file" and "The shape we want in each place", and document 02, request 6. A
// value may hold anything: counts up to the largest number, parents that point anywhere, malformed types, any edition. Entries past the counts are zeros,
// and ignored.
#![tactic(auto)]

ghost use Rattle.std.specs.Prelude.{◌≡◌};
ghost use Rattle.plans.specs.Plan.{zero_plan};

mod bytes;
mod lookup;
mod soundness;
mod tree;

pub use lookup::{is_host, is_soft, node_at, own_type, supply_at, wanted_as};
use meaning::{Misses, SlotType};
pub use soundness::{are_misses_borne, is_count, is_edition, is_sound};
use ticks::Tick;
pub use tree::{is_child, is_parent_allowed, is_within};

#[derive(Clone, Copy, Debug, PartialEq, Eq)]
pub enum NodeKind {
    AlignedLeaf = 0,
    SlidingLeaf = 1,
    Host = 2,
}

#[derive(Clone, Copy, Debug, PartialEq, Eq)]
pub enum Parent {
    Supply(u8),
    Node(u8),
}

#[derive(Clone, Copy, Debug, PartialEq, Eq)]
pub struct Node {
    pub kind: NodeKind,
    pub parent: Parent,
    pub wanted: SlotType,
    pub misses: Misses,
    pub served: SlotType,
}

// `edition` is that of the plan file, `cores` the number of supplies, `size` the number of nodes. Arrays with counts beside them, and no vectors: a controller
// has no heap, and a value whose counts are anything is answered too, by 16.
#[derive(Clone, Copy, Debug, PartialEq, Eq)]
pub struct Plan {
    pub edition: u8,
    pub tick: Tick,
    pub cores: usize,
    pub supplies: [SlotType; 8],
    pub size: usize,
    pub nodes: [Node; 64],
}

// The entries of a plan value that are not used.
pub const ZERO_TYPE: SlotType = SlotType { c: 0, t: 0 };

pub const ZERO_NODE: Node = Node {
    kind: NodeKind::AlignedLeaf,
    parent: Parent::Supply(0),
    wanted: ZERO_TYPE,
    misses: Misses { d: 0, w: 0 },
    served: ZERO_TYPE,
};

// What a node of edition 1 may miss: none of its windows.
pub const NO_MISSES: Misses = Misses { d: 0, w: 1 };

// The plan value of zeros.
#[tactic(auto, unfolding(crate::specs::Plan::zero_plan))]
pub fn zero_plan() -> Plan
    ensures { result ≡ zero_plan }
{
    Plan {
        edition: 0,
        tick: Tick { p: 0, q: 0 },
        cores: 0,
        supplies: [ZERO_TYPE; 8],
        size: 0,
        nodes: [ZERO_NODE; 64],
    }
}

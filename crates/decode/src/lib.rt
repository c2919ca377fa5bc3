// The plan value that bytes spell: where the parts of a plan file stand, and what they say. Document 01, "The plan file", and document 02, request 6. Bytes
// of any length and content are taken; whether they are a plan is the reader's to say.
#![tactic(auto)]

ghost use Rattle.std.specs.Prelude.{◌≡◌, ◌≤◌, min, replicate};
ghost use Rattle.plans.specs.Plan.{zero_type, zero_node};
ghost use Rattle.decode.specs.Positions.{edition_of, further, cores_at, cores_of, size_of, nodes_at, names_at};
ghost use Rattle.decode.specs.Decode.{parent_named, misses_or, supply_of, node_of, filled, plan_of};

use meaning::{Misses, SlotType};
use plans::{NO_MISSES, Node, NodeKind, Parent, Plan, ZERO_NODE, ZERO_TYPE};
use std::array;
use ticks::Tick;

// What a parent byte names, if anything: there are at most 8 supplies and 64 nodes. Each arm names a parent, or nothing.
#[tactic(auto, unfolding(crate::specs::Decode::parent_named, crate::specs::Decode::can_be, plans::specs::Bytes::parent_of_byte))]
pub fn parent_named(b: u8) -> Option<Parent>
    ensures { result ≡ parent_named b }
{
    match b {
        0..=7 => Some(Parent::Supply(b)),
        8..=127 => None,
        128..=191 => Some(Parent::Node(b - 128)),
        192..=255 => None,
    }
}

// The edition, as the tick's count says it.
#[tactic(auto, unfolding(crate::specs::Positions::edition_of))]
pub fn edition_of(s: &[u8]) -> u8
    ensures { result ≡ edition_of s.now }
{
    fields::byte_at(s, 0)
}

// So many bytes more in edition 2.
#[tactic(auto, unfolding(crate::specs::Positions::further))]
pub fn further(s: &[u8], n: usize) -> usize
    ensures { (result ≡ further s.now n) × (result ≤ n) }
{
    if edition_of(s) == 2 { n } else { 0 }
}

// Where the supplies' count stands.
#[tactic(auto, unfolding(crate::specs::Positions::cores_at))]
pub fn cores_at(s: &[u8]) -> usize
    ensures { (result ≡ cores_at s.now) × (result ≤ 17) }
{
    9 + further(s, 8)
}

// The number of supplies, as the file says.
#[tactic(auto, unfolding(crate::specs::Positions::cores_of))]
pub fn cores_of(s: &[u8]) -> usize
    ensures { (result ≡ cores_of s.now) × (result ≤ 255) }
{
    fields::byte_at(s, cores_at(s)).into()
}

// Where the nodes' count stands.
#[tactic(auto, unfolding(crate::specs::Positions::nodes_at, crate::specs::Positions::supply_start))]
pub fn nodes_at(s: &[u8]) -> usize
    ensures { (result ≡ nodes_at s.now) × (result ≤ 1038) }
{
    cores_at(s) + 1 + 4 * cores_of(s)
}

// The number of nodes, as the file says.
#[tactic(auto, unfolding(crate::specs::Positions::size_of))]
pub fn size_of(s: &[u8]) -> usize
    ensures { (result ≡ size_of s.now) × (result ≤ 255) }
{
    fields::byte_at(s, nodes_at(s)).into()
}

// Where the names' count stands.
#[tactic(auto, unfolding(crate::specs::Positions::names_at, crate::specs::Positions::node_start))]
pub fn names_at(s: &[u8]) -> usize
    ensures { (result ≡ names_at s.now) × (result ≤ 4609) }
{
    let size = size_of(s);
    nodes_at(s) + 1 + 10 * size + further(s, 4 * size)
}

// The plan value that the bytes spell.
#[tactic(auto, unfolding(crate::specs::Decode::plan_of))]
pub fn plan_of(s: &[u8]) -> Plan
    ensures { result ≡ plan_of s.now }
{
    Plan {
        edition: edition_of(s),
        tick: Tick {
            p: fields::four_at(s, 1),
            q: fields::four_at(s, 5),
        },
        cores: cores_of(s),
        supplies: supplies_of(s),
        size: size_of(s),
        nodes: nodes_of(s),
    }
}

fn supplies_of(s: &[u8]) -> [SlotType; 8]
    ensures { result ≡ filled (supply_of s.now) (replicate 8 zero_type) (min (cores_of s.now) 8) }
{
    let cores = cores_of(s);
    let start = cores_at(s) + 1;
    array::from_fn(|i| {
        if i < cores {
            fields::type_at(s, start + 4 * i)
        } else {
            ZERO_TYPE
        }
    })
}

fn nodes_of(s: &[u8]) -> [Node; 64]
    ensures { result ≡ filled (node_of s.now) (replicate 64 zero_node) (min (size_of s.now) 64) }
{
    let size = size_of(s);
    array::from_fn(|i| if i < size { node_of(s, i) } else { ZERO_NODE })
}

#[tactic(auto, unfolding(crate::specs::Decode::node_of, crate::specs::Decode::parent_or, crate::specs::Positions::node_start, crate::specs::Positions::served_at))]
fn node_of(s: &[u8], i: usize) -> Node
    requires { i ≤ 64 }
    ensures { result ≡ node_of s.now i }
{
    let k = nodes_at(s) + 1 + 10 * i + further(s, 4 * i);
    Node {
        kind: NodeKind::named(fields::byte_at(s, k).into()),
        parent: parent_named(fields::byte_at(s, k + 1)).unwrap_or(Parent::Supply(0)),
        wanted: fields::type_at(s, k + 2),
        misses: misses_or(s, k + 6),
        served: fields::type_at(s, k + 6 + further(s, 4)),
    }
}

// The misses whose D begins at k in edition 2; none are allowed in edition 1.
#[tactic(auto, unfolding(crate::specs::Decode::misses_or))]
fn misses_or(s: &[u8], k: usize) -> Misses
    ensures { result ≡ misses_or s.now k }
{
    if edition_of(s) == 2 {
        fields::misses_at(s, k)
    } else {
        NO_MISSES
    }
}

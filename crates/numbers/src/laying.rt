// A plan value laid down in 533 numbers.
ghost use Rattle.std.specs.Prelude.{◌≡◌, ◌+◌, ◌≤◌, ◌<◌, ◌^◌, length};
ghost use Rattle.std.proofs.lemmas.List.Edits.{sets};
ghost use Rattle.numbers.specs.Numbers.{type_numbers, node_numbers, plan_numbers};

use meaning::SlotType;
use plans::{Node, Plan};

// All 533 numbers: the edition, P, Q and the number of supplies, eight supplies, the number of nodes, and 64 nodes.
pub fn lay(plan: &Plan, out: &mut [u32])
    requires { (length out.old ≡ 533) × ((plan.now.cores < 2 ^ 32) × (plan.now.size < 2 ^ 32)) }
    ensures { out.new ≡ plan_numbers plan.now }
{
    let edition = u32::from(plan.edition);
    put(
        &[edition, plan.tick.p, plan.tick.q, plan.cores as u32],
        0,
        out,
    );
    for (i, supply) in plan.supplies.iter().enumerate() {
        put(&type_numbers(supply), 4 + 2 * i, out);
    }
    out[20] = plan.size as u32;
    for (i, node) in plan.nodes.iter().enumerate() {
        put(&node_numbers(node), 21 + 8 * i, out);
    }
}

// Numbers laid down from place k on.
#[tactic(auto, using(crate::proofs::Stored::put_stored))]
fn put(numbers: &[u32], k: usize, out: &mut [u32])
    requires { k + length numbers.now ≤ length out.old }
    ensures { out.new ≡ sets out.old k numbers.now }
{
    out[k..k + numbers.len()].copy_from_slice(numbers);
}

#[tactic(auto, unfolding(crate::specs::Numbers::type_numbers))]
fn type_numbers(a: &SlotType) -> [u32; 2]
    ensures { result ≡ type_numbers a.now }
{
    [u32::from(a.c), u32::from(a.t)]
}

#[tactic(auto, unfolding(crate::specs::Numbers::node_numbers, crate::specs::Numbers::type_numbers, crate::specs::Numbers::misses_numbers))]
fn node_numbers(n: &Node) -> [u32; 8]
    ensures { result ≡ node_numbers n.now }
{
    [
        u32::from(u8::from(n.kind)),
        u32::from(u16::from(n.parent)),
        u32::from(n.wanted.c),
        u32::from(n.wanted.t),
        u32::from(n.misses.d),
        u32::from(n.misses.w),
        u32::from(n.served.c),
        u32::from(n.served.t),
    ]
}

// A plan value from its numbers: none where one of them is beyond its field.
ghost use Rattle.std.specs.Prelude.{◌≡◌, ◌&&◌, ℕ, Bool, leb, length, replicate};
ghost use Rattle.std.specs.Simd.{first_chunks};
ghost use Rattle.plans.specs.Plan.{zero_type, zero_node};
ghost use Rattle.plans.specs.Sound.{all};
ghost use Rattle.plans.specs.Bytes.{kind_named};
ghost use Rattle.decode.specs.Decode.{filled};
ghost use Rattle.numbers.specs.Numbers.{is_pair, is_node, is_supply_at, is_node_at, is_plan, type_from, node_from, supply_in, node_in, plan_in, where_fit, SaysEach};

use meaning::{Misses, SlotType};
use plans::{Node, NodeKind, Parent, Plan, ZERO_NODE, ZERO_TYPE};
use ticks::Tick;

// The plan value that 533 numbers say, supplies by two and nodes by eight.
#[tactic(auto, using(crate::proofs::Fields::fit_some, crate::proofs::Fields::fit_none), unfolding(crate::specs::Numbers::is_plan, crate::specs::Numbers::plan_in))]
pub fn plan_in(xs: &[u32]) -> Option<Plan>
    ensures { result ≡ where_fit (is_plan xs.now) (plan_in xs.now) }
{
    if xs.len() != 533 {
        return None;
    }
    Some(Plan {
        edition: u8::try_from(xs[0]).ok()?,
        tick: Tick { p: xs[1], q: xs[2] },
        cores: xs[3] as usize,
        supplies: supplies_in(xs)?,
        size: xs[20] as usize,
        nodes: nodes_in(xs)?,
    })
}

// The eight supplies, and the 64 nodes.
fn supplies_in(xs: &[u32]) -> Option<[SlotType; 8]>
    requires { length xs.now ≡ 533 }
    ensures { result ≡ where_fit (all (is_supply_at xs.now) 8) (filled (supply_in xs.now) (replicate 8 zero_type) 8) }
{
    let (pairs, _) = xs[4..20].as_chunks::<2>();
    each_of(ZERO_TYPE, pairs, type_of)
}

fn nodes_in(xs: &[u32]) -> Option<[Node; 64]>
    requires { length xs.now ≡ 533 }
    ensures { result ≡ where_fit (all (is_node_at xs.now) 64) (filled (node_in xs.now) (replicate 64 zero_node) 64) }
{
    let (eights, _) = xs[21..].as_chunks::<8>();
    each_of(ZERO_NODE, eights, node_of)
}

// What `say` makes of each of N parts; none where it makes nothing of one of them.
// Not std's array::try_from_fn: it promises a call of some closure of that type at each index, and not of the one that it was given.
pub fn each_of<S: Copy, T: Copy, F: Fn(S) -> Option<T>, const N: usize>(
    zero: T,
    parts: &[S],
    say: F,
) -> Option<[T; N]>
    requires callable { F.IsAlwaysCallable say }
    requires whole { length parts.now ≡ N }
    ensures { (t : ℕ → Bool) (f : ℕ → T) → SaysEach (F.post say) parts.now t f → result ≡ where_fit (all t N) (filled f (replicate N zero) N) }
{
    let mut made = [zero; N];
    for (i, &part) in parts.iter().enumerate() {
        made[i] = say(part)?;
    }
    Some(made)
}

// The type that two numbers say, and the node that eight do.
#[tactic(auto, using(crate::proofs::Fields::fit_some, crate::proofs::Fields::fit_none), unfolding(crate::specs::Numbers::is_pair, crate::specs::Numbers::type_from))]
fn type_of(pair: [u32; 2]) -> Option<SlotType>
    ensures { result ≡ where_fit (is_pair pair 0) (type_from pair 0) }
{
    let [c, t] = pair;
    Some(SlotType {
        c: short(c)?,
        t: short(t)?,
    })
}

#[tactic(auto, using(crate::proofs::Fields::fit_some, crate::proofs::Fields::fit_none), unfolding(crate::specs::Numbers::is_node, crate::specs::Numbers::is_pair, crate::specs::Numbers::node_from, crate::specs::Numbers::type_from, crate::specs::Numbers::misses_from))]
fn node_of(eight: [u32; 8]) -> Option<Node>
    ensures { result ≡ where_fit (is_node eight 0) (node_from eight 0) }
{
    let [kind, parent, c, t, d, w, served_c, served_t] = eight;
    Some(Node {
        kind: kind_of(kind)?,
        parent: Parent::from(u8::try_from(parent).ok()?),
        wanted: type_of([c, t])?,
        misses: Misses {
            d: short(d)?,
            w: short(w)?,
        },
        served: type_of([served_c, served_t])?,
    })
}

// A number of 16 bits.
fn short(x: u32) -> Option<u16>
    ensures { result ≡ where_fit (leb x 65535) x }
{
    u16::try_from(x).ok()
}

// A kind's number.
fn kind_of(n: u32) -> Option<NodeKind>
    ensures { result ≡ where_fit (leb n 2) (kind_named n) }
{
    if n <= 2 {
        Some(NodeKind::named(n.into()))
    } else {
        None
    }
}

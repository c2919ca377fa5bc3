// The nodes: kind, parent, depth, types and misses of each.
ghost use Rattle.std.specs.Prelude.{◌≡◌, ◌≤◌};
ghost use Rattle.answers.specs.Answers.{answered};
ghost use Rattle.decode.specs.Decode.{plan_of};
ghost use Rattle.reader.specs.Read.{check_kind, check_parent, check_misses, check_node, check_nodes};

use crate::supplies::check_count;
use answers::{Refusal, Rule};
use plans::Plan;

// The nodes' count, and then each node.
#[tactic(auto, unfolding(crate::specs::Read::check_nodes, answers::specs::Answers::first))]
pub fn check_nodes(s: &[u8]) -> Result<(), Refusal>
    ensures { answered result ≡ check_nodes s.now }
{
    check_count(s, decode::nodes_at(s), 64)?;
    let file = File {
        bytes: s,
        plan: decode::plan_of(s),
    };
    answers::each(decode::size_of(s), |i| file.check_node(i))
}

#[tactic(auto, unfolding(crate::specs::Read::check_kind, answers::specs::Answers::first))]
fn check_kind(s: &[u8], k: usize) -> Result<(), Refusal>
    ensures { answered result ≡ check_kind s.now k }
{
    fields::is_there(s, k, 1)?;
    answers::tested(fields::byte_at(s, k) <= 2, Rule::Kind, k)
}

// A plan file's bytes with the plan value that they spell, which is asked about the parent, the depth and the kind of a node.
#[derive(Clone, Copy)]
struct File<'a> {
    bytes: &'a [u8],
    plan: Plan,
    ghost spelled: { plan ≡ plan_of bytes.now },
}

impl<'a> File<'a> {
    #[tactic(auto, unfolding(crate::specs::Read::check_node, decode::specs::Positions::node_start, decode::specs::Positions::served_at, answers::specs::Answers::first))]
    fn check_node(&self, i: usize) -> Result<(), Refusal>
        requires { i ≤ 255 }
        ensures { answered result ≡ check_node self.now.bytes.now i }
    {
        let s = self.bytes;
        let k = decode::nodes_at(s) + 1 + 10 * i + decode::further(s, 4 * i);
        check_kind(s, k)?;
        self.check_parent(i, k + 1)?;
        fields::check_type(s, k + 2)?;
        self.check_misses(i, k + 6)?;
        fields::check_type(s, k + 6 + decode::further(s, 4))
    }

    // The parent byte of node i, at k: 6, then 7.
    #[tactic(auto, unfolding(crate::specs::Read::check_parent, decode::specs::Decode::is_named, answers::specs::Answers::first))]
    fn check_parent(&self, i: usize, k: usize) -> Result<(), Refusal>
        ensures { answered result ≡ check_parent self.now.bytes.now i k }
    {
        fields::is_there(self.bytes, k, 1)?;
        let named = decode::parent_named(fields::byte_at(self.bytes, k)).is_some();
        let allowed = named && plans::is_parent_allowed(&self.plan, i);
        answers::tested(allowed, Rule::Parent, k)?;
        answers::tested(plans::is_within(&self.plan, i), Rule::Depth, k)
    }

    // D and W of node i, where D begins at k in edition 2; edition 1 has none.
    #[tactic(auto, using(fields::proofs::Ends::there_ends), unfolding(crate::specs::Read::check_misses, plans::specs::Plan::kind_of, answers::specs::Answers::first))]
    fn check_misses(&self, i: usize, k: usize) -> Result<(), Refusal>
        ensures { answered result ≡ check_misses self.now.bytes.now i k }
    {
        if decode::edition_of(self.bytes) != 2 {
            return Ok(());
        }
        fields::is_there(self.bytes, k, 2)?;
        fields::is_there(self.bytes, k + 2, 2)?;
        let kind = plans::node_at(&self.plan, i).kind;
        let misses = fields::misses_at(self.bytes, k);
        answers::tested(plans::are_misses_borne(kind, misses), Rule::Misses, k)
    }
}

// Rules 20 and 11 over all nodes: a soft leaf is so made, and a node's served type, aligned, stands in for its wanted type, with the misses that it allows.
ghost use Rattle.std.specs.Prelude.{◌≡◌};
ghost use Rattle.answers.specs.Answers.{answered, each};
ghost use Rattle.rules.specs.Check.{made, meets, node_alone};

use answers::{Refusal, Rule};
use meaning::Kind;
use plans::{NodeKind, Plan};
use types::Verdict;

pub fn check_nodes(plan: &Plan) -> Result<(), Refusal>
    ensures { answered result ≡ each (node_alone plan.now) plan.now.size }
{
    answers::each(plan.size, |i| check_node(plan, i))
}

// 20, and then 11.
#[tactic(auto, using(answers::proofs::Laws::test_accepted), unfolding(crate::specs::Check::node_alone, crate::specs::Check::twenty_at, crate::specs::Check::eleven_at, answers::specs::Answers::first))]
fn check_node(plan: &Plan, i: usize) -> Result<(), Refusal>
    ensures { answered result ≡ node_alone plan.now i }
{
    answers::tested(is_made(plan, i), Rule::Soft, i)?;
    answers::tested(is_met(plan, i), Rule::StandsIn, i)
}

// Whether node i is made as a soft leaf has to be, where it is one.
#[tactic(auto, unfolding(crate::specs::Check::made, crate::specs::Check::aligns))]
fn is_made(plan: &Plan, i: usize) -> bool
    ensures { result ≡ made plan.now i }
{
    let node = plans::node_at(plan, i);
    !plans::is_soft(plan, i)
        || node.kind == NodeKind::AlignedLeaf && soft::is_divided(node.served, node.wanted)
}

// Whether node i's served type stands in for its wanted one.
#[tactic(auto, unfolding(crate::specs::Check::meets, crate::specs::Check::holding))]
fn is_met(plan: &Plan, i: usize) -> bool
    ensures { result ≡ meets plan.now i }
{
    let node = plans::node_at(plan, i);
    if plans::is_soft(plan, i) {
        return soft::is_allowed(node.served, node.wanted, node.misses);
    }
    let wants = plans::wanted_as(node.kind);
    let verdict = types::judge(Kind::Aligned, node.served, wants, node.wanted);
    matches!(verdict, Ok(Verdict::Holds(_)))
}

// Plan bytes of any length and content to a plan value or a refusal: document 01, "The plan file" and "Refusal numbers". The bytes are checked
// from the front, each field when it has been read, and then the rules. specs/Read.antt says it field by field.
#![tactic(auto)]

ghost use Rattle.std.specs.Prelude.{◌≡◌};
ghost use Rattle.answers.specs.Answers.{answered};
ghost use Rattle.reader.specs.Read.{check_bytes, reading_of, read_plan, has_name, name_of, name_place};
ghost use Rattle.reader.specs.Part.{PartAt};

mod nodes;
mod supplies;

use answers::{Refusal, Rule};
use plans::Plan;

// Reads a plan.
#[tactic(auto, using(crate::proofs::Handed::bytes_refused, crate::proofs::Handed::rules_refused, crate::proofs::Handed::plan_read))]
pub fn read(s: &[u8]) -> Result<Plan, Refusal>
    ensures { reading_of result ≡ read_plan s.now }
{
    check_bytes(s)?;
    let plan = decode::plan_of(s);
    rules::check(plan)?;
    Ok(plan)
}

// The very part of the bytes that holds the name of node i; an empty part for a refused plan or a node not there.
pub fn name(s: &[u8], i: usize) -> &[u8]
    ensures { PartAt s.entry result (name_place s.now i) (name_of s.now i) }
{
    if has_name(s, i) {
        let k = names::start_of(s, i);
        let from = k + 1;
        let to = from + usize::from(fields::byte_at(s, k));
        &s[from..to]
    } else {
        &s[..0]
    }
}

// Whether the plan is accepted and node i is there.
#[tactic(auto, using(crate::proofs::Handed::read_accepts), unfolding(crate::specs::Read::has_name))]
fn has_name(s: &[u8], i: usize) -> bool
    ensures { result ≡ has_name s.now i }
{
    read(s).is_ok() && i < decode::size_of(s)
}

// Refusals 1 to 10, from the front.
#[tactic(auto, unfolding(crate::specs::Read::check_bytes, crate::specs::Read::check_end, answers::specs::Answers::first))]
fn check_bytes(s: &[u8]) -> Result<(), Refusal>
    ensures { answered result ≡ check_bytes s.now }
{
    supplies::check_tick(s)?;
    supplies::check_supplies(s)?;
    nodes::check_nodes(s)?;
    names::check_names(s)?;
    let end = names::end_at(s);
    answers::tested(s.len() <= end, Rule::End, end)
}

// The tick and the supplies.
ghost use Rattle.std.specs.Prelude.{◌≡◌};
ghost use Rattle.answers.specs.Answers.{answered};
ghost use Rattle.reader.specs.Read.{check_part, spare_at, check_tick, check_count, check_supplies};

use answers::{Refusal, Rule};

// The tick's count, then P and Q, and in edition 2 the spare bytes that follow them.
#[tactic(auto, unfolding(crate::specs::Read::check_tick, crate::specs::Read::check_spare, answers::specs::Answers::first))]
pub fn check_tick(s: &[u8]) -> Result<(), Refusal>
    ensures { answered result ≡ check_tick s.now }
{
    fields::is_there(s, 0, 1)?;
    answers::tested(plans::is_edition(decode::edition_of(s)), Rule::Count, 0)?;
    check_part(s, 1)?;
    check_part(s, 5)?;
    answers::each(decode::further(s, 8), |j| check_spare(s, 9 + j))
}

// P or Q, which begins at k.
#[tactic(auto, unfolding(crate::specs::Read::check_part, answers::specs::Answers::first))]
fn check_part(s: &[u8], k: usize) -> Result<(), Refusal>
    ensures { answered result ≡ check_part s.now k }
{
    fields::is_there(s, k, 4)?;
    answers::tested(ticks::in_range(fields::four_at(s, k)), Rule::Tick, k)
}

// The spare byte at k.
#[tactic(auto, unfolding(crate::specs::Read::spare_at, answers::specs::Answers::first))]
fn check_spare(s: &[u8], k: usize) -> Result<(), Refusal>
    ensures { answered result ≡ spare_at s.now k }
{
    fields::is_there(s, k, 1)?;
    answers::tested(fields::byte_at(s, k) == 0, Rule::Tick, k)
}

// A one-byte count at k, from 1 to `most`.
#[tactic(auto, unfolding(crate::specs::Read::check_count, answers::specs::Answers::first))]
pub fn check_count(s: &[u8], k: usize, most: usize) -> Result<(), Refusal>
    ensures { answered result ≡ check_count s.now k most }
{
    fields::is_there(s, k, 1)?;
    let count = fields::byte_at(s, k);
    answers::tested(plans::is_count(count.into(), most), Rule::Count, k)
}

// The supplies' count, and then each supply.
#[tactic(auto, unfolding(crate::specs::Read::check_supplies, crate::specs::Read::check_supply, decode::specs::Positions::supply_start, answers::specs::Answers::first))]
pub fn check_supplies(s: &[u8]) -> Result<(), Refusal>
    ensures { answered result ≡ check_supplies s.now }
{
    let k = decode::cores_at(s);
    check_count(s, k, 8)?;
    answers::each(
        decode::cores_of(s),
        |i| fields::check_type(s, k + 1 + 4 * i),
    )
}

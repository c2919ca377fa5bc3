// The fields of a plan file: bytes, numbers of two and four bytes, types, misses, and whether a field is there. Document 01, "The plan file", and document
// 02, request 6. Every call takes bytes of any length and any position: past the end a byte reads as 0.
#![tactic(auto)]

ghost use Rattle.std.specs.Prelude.{◌≡◌};
ghost use Rattle.answers.specs.Answers.{answered};
ghost use Rattle.fields.specs.Fields.{byte_at, two_at, four_at, type_at, misses_at, there, check_type};

use answers::{Refusal, Rule};
use meaning::{Misses, SlotType};

#[tactic(auto, unfolding(crate::specs::Fields::byte_at))]
pub fn byte_at(s: &[u8], k: usize) -> u8
    ensures { result ≡ byte_at s.now k }
{
    s.get(k).copied().unwrap_or(0)
}

#[tactic(auto, using(crate::proofs::Ends::byte_further), unfolding(crate::specs::Fields::two_at))]
pub fn two_at(s: &[u8], k: usize) -> u16
    ensures { result ≡ two_at s.now k }
{
    u16::from_le_bytes([byte_at(s, k), byte_at(s, k.saturating_add(1))])
}

#[tactic(auto, using(crate::proofs::Ends::two_further), unfolding(crate::specs::Fields::four_at))]
pub fn four_at(s: &[u8], k: usize) -> u32
    ensures { result ≡ four_at s.now k }
{
    u32::from(two_at(s, k)) + 65536 * u32::from(two_at(s, k.saturating_add(2)))
}

#[tactic(auto, using(crate::proofs::Ends::two_further), unfolding(crate::specs::Fields::type_at))]
pub fn type_at(s: &[u8], k: usize) -> SlotType
    ensures { result ≡ type_at s.now k }
{
    SlotType {
        c: two_at(s, k),
        t: two_at(s, k.saturating_add(2)),
    }
}

// D and W, of which D begins at k: the twin of `type_at`, since the documents name the two pairs of numbers apart.
#[tactic(auto, using(crate::proofs::Ends::two_further), unfolding(crate::specs::Fields::misses_at))]
pub fn misses_at(s: &[u8], k: usize) -> Misses
    ensures { result ≡ misses_at s.now k }
{
    Misses {
        d: two_at(s, k),
        w: two_at(s, k.saturating_add(2)),
    }
}

// Whether the n bytes of a field from k on are all there.
#[tactic(auto, unfolding(crate::specs::Fields::there))]
pub fn is_there(s: &[u8], k: usize, n: usize) -> Result<(), Refusal>
    ensures { answered result ≡ there s.now k n }
{
    answers::tested(k <= s.len() && n <= s.len() - k, Rule::There, k)
}

// The type whose C begins at k: its two numbers, then its form.
#[tactic(auto, using(crate::proofs::Ends::there_ends), unfolding(crate::specs::Fields::check_type, answers::specs::Answers::first))]
pub fn check_type(s: &[u8], k: usize) -> Result<(), Refusal>
    ensures { answered result ≡ check_type s.now k }
{
    is_there(s, k, 2)?;
    is_there(s, k + 2, 2)?;
    let form = meaning::is_well_formed(type_at(s, k));
    answers::tested(form, Rule::WellFormed, k)
}

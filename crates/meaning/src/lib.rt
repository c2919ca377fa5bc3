// What a type is and what it means: document 01, "Types and what they mean"; the meaning is that of document 003, section III.
// A type asks for C slots in T; a soft one lets D of every W windows miss them (document 02, request 6). Allocations, and what it is to honour a type or
// to stand in for one, are definitions of specs/.
// The decision on pairs of types stands in the crate `types`.
#![tactic(auto)]

ghost use Rattle.std.specs.Prelude.{◌≡◌};
ghost use Rattle.meaning.specs.Types.{ranged, well_formed};
ghost use Rattle.meaning.specs.Soft.{within_range};

// C slots in T. The numbers may be anything that sixteen bits hold.
#[derive(Clone, Copy, Debug, PartialEq, Eq)]
pub struct SlotType {
    pub c: u16,
    pub t: u16,
}

// Misses allowed: D of every W wanted windows. The numbers may be anything that sixteen bits hold.
#[derive(Clone, Copy, Debug, PartialEq, Eq)]
pub struct Misses {
    pub d: u16,
    pub w: u16,
}

// Aligned: windows start at multiples of T (the paper's weak). Sliding: windows start anywhere (its strong).
#[derive(Clone, Copy, Debug, PartialEq, Eq)]
pub enum Kind {
    Aligned,
    Sliding,
}

// Whether a type is well formed.
#[tactic(auto, unfolding(crate::specs::Types::well_formed))]
pub fn is_well_formed(a: SlotType) -> bool
    ensures { result ≡ well_formed a }
{
    is_ranged(a.c, a.t, 4096)
}

// Whether D and W are within their range: the twin of the call above, since the documents name the two pairs of numbers apart.
#[tactic(auto, unfolding(crate::specs::Soft::within_range))]
pub fn is_within_range(m: Misses) -> bool
    ensures { result ≡ within_range m }
{
    is_ranged(m.d, m.w, 1024)
}

// Whether t is from 1 to `most`, and c at most t.
fn is_ranged(c: u16, t: u16, most: u16) -> bool
    ensures { result ≡ ranged c t most }
{
    1 <= t && t <= most && c <= t
}

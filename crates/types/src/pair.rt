// Two well-formed types: what the first owes the windows of the second, where that is least, and the first window in which it is too little.
ghost use Rattle.std.specs.Prelude.{◌≡◌, true, ◌≤◌, IfOk, IfErr};
ghost use Rattle.meaning.specs.Types.{well_formed};
ghost use Rattle.types.specs.Bounds.{last_start};
ghost use Rattle.types.specs.Least.{step, turns, ones_from, ones_at, least_ones, first_below, first_short};
ghost use Rattle.types.specs.Verdict.{said, judged};

use crate::{Refusal, Verdict};
use meaning::{Kind, SlotType};

// A giver and a wanted type, both well formed.
#[derive(Clone, Copy)]
pub struct Pair {
    pub gives: Kind,
    pub giver: SlotType,
    pub wants: Kind,
    pub wanted: SlotType,
    ghost giver_fits: { well_formed giver ≡ true },
    ghost wanted_fits: { well_formed wanted ≡ true },
}

impl Pair {
    // The pair, unless one of the two is malformed; the giver is looked at first.
    #[tactic(auto, unfolding(crate::specs::Verdict::judged))]
    pub fn new(gives: Kind, giver: SlotType, wants: Kind, wanted: SlotType) -> Result<Pair, Refusal>
        ensures made { IfOk result (λ p. (p.gives ≡ gives) × (p.giver ≡ giver) × (p.wants ≡ wants) × (p.wanted ≡ wanted)) }
        ensures refused { IfErr result (λ e. said (Err e) ≡ judged gives giver wants wanted) }
    {
        if !meaning::is_well_formed(giver) {
            Err(Refusal::Giver)
        } else if !meaning::is_well_formed(wanted) {
            Err(Refusal::Wanted)
        } else {
            Ok(Pair {
                gives,
                giver,
                wants,
                wanted,
            })
        }
    }

    // Whether the least ones of any wanted window are enough. Inlined, since a call hands its pair on through memory.
    #[inline(always)]
    #[tactic(auto, unfolding(crate::specs::Verdict::judged))]
    pub fn verdict(self) -> Verdict
        ensures { said (Ok result) ≡ judged self.gives self.giver self.wants self.wanted }
    {
        let ones = self.least_ones();
        if self.wanted.c <= ones {
            Verdict::Holds(ones)
        } else {
            Verdict::Short(ones)
        }
    }

    // The least ones of any wanted window. A sliding giver owes every window what an aligned one owes at start 0.
    #[tactic(auto, using(crate::proofs::Windows::least_sliding))]
    fn least_ones(self) -> u16
        ensures { result ≡ least_ones self.gives self.giver self.wants self.wanted }
    {
        match self.gives {
            Kind::Aligned => self.least_aligned(),
            Kind::Sliding => self.ones_from(0),
        }
    }

    // The offsets that occur in the giver's blocks are the multiples of a common divisor d, and what is owed falls up to offset C and rises from
    // there on: it is least at the last multiple up to C or at the next one.
    #[tactic(auto, using(crate::proofs::Windows::divisor_positive, crate::proofs::Windows::least_two))]
    fn least_aligned(self) -> u16
        ensures { result ≡ least_ones Kind.Aligned self.giver self.wants self.wanted }
    {
        let d = divisors::common(u32::from(self.giver.t), stride(self.wants, self.wanted));
        let low = u32::from(self.giver.c) / d * d;
        self.ones_from(low).min(self.ones_from(low + d))
    }

    // The ones that the window from s on is owed: what of its part in s's own block exceeds T − C, C for each whole block that follows, and what of
    // the last part exceeds T − C.
    #[tactic(auto, using(crate::proofs::Windows::fits, crate::proofs::Windows::by_parts, crate::proofs::Windows::parts_most))]
    pub fn ones_from(self, s: u32) -> u16
        ensures { result ≡ ones_from self.giver self.wanted s }
    {
        let c = u32::from(self.giver.c);
        let t = u32::from(self.giver.t);
        let long = u32::from(self.wanted.t);
        let zeros = t - c;
        let head = long.min(t - s % t);
        let rest = long - head;
        (head.saturating_sub(zeros) + rest / t * c + (rest % t).saturating_sub(zeros)) as u16
    }

    // The start of the first wanted window that falls short.
    #[tactic(auto, using(crate::proofs::First::start_small), unfolding(crate::specs::Least::first_short))]
    pub fn first_short(self) -> u32
        ensures { (result ≡ first_short self.gives self.giver self.wants self.wanted) × (result ≤ last_start) }
    {
        self.first_number() * stride(self.wants, self.wanted)
    }

    // The number of the first wanted window that falls short, of those that are looked at.
    fn first_number(self) -> u32
        ensures number { result ≡ first_below (ones_at self.giver self.wants self.wanted) self.wanted.c 0 (turns self.gives self.giver) }
        ensures few { result ≤ 4096 }
    {
        let turns = stride(self.gives, self.giver);
        let first = (0..turns).find(|j| self.ones_at(*j) < self.wanted.c);
        first.unwrap_or(turns)
    }

    // The ones that the wanted window of number j is owed.
    #[tactic(auto, unfolding(crate::specs::Least::ones_at))]
    fn ones_at(self, j: u32) -> u16
        requires { j ≤ 4096 }
        ensures { result ≡ ones_at self.giver self.wants self.wanted j }
    {
        self.ones_from(j * stride(self.wants, self.wanted))
    }
}

// How far windows of a kind start from each other: for a wanted type the step from one window to the next, and for a giver how many starts are
// looked at.
#[tactic(auto, using(crate::proofs::Windows::fits), unfolding(crate::specs::Least::step, crate::specs::Least::turns))]
fn stride(kind: Kind, a: SlotType) -> u32
    ensures step { result ≡ step kind a }
    ensures turns { result ≡ turns kind a }
    ensures few { well_formed a ≡ true → result ≤ 4096 }
{
    match kind {
        Kind::Aligned => u32::from(a.t),
        Kind::Sliding => 1,
    }
}

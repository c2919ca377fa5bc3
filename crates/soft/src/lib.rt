// Misses allowed: document 02, request 6. Whether no stretch of W wanted windows can lose more than D of them, whatever the served type gives.
// Windows take the place of slots: a served period of K windows can lose u of them, so the question is whether (K − u, K) stands in for (W − D, W), aligned,
// which the decision on pairs answers with no loop over stretches. The formula is in specs/Formula.antt, and what it means in specs/Promises.antt.
#![tactic(auto)]

ghost use Rattle.std.specs.Prelude.{◌≡◌, true};
ghost use Rattle.meaning.specs.Types.{well_formed};
ghost use Rattle.meaning.specs.Soft.{within_range};
ghost use Rattle.soft.specs.Formula.{divides, divided, windows_in, lost, lost_of_many, loses_few, allowed};

use meaning::{Kind, Misses, SlotType};
use types::Verdict;

// Whether one of the two periods divides the other.
#[tactic(auto, unfolding(crate::specs::Formula::divided))]
pub fn is_divided(served: SlotType, wanted: SlotType) -> bool
    ensures { result ≡ divided served wanted }
{
    is_multiple(served.t, wanted.t) || is_multiple(wanted.t, served.t)
}

// Whether no stretch can lose more than D windows.
#[tactic(auto, unfolding(crate::specs::Formula::allowed))]
pub fn is_allowed(served: SlotType, wanted: SlotType, misses: Misses) -> bool
    ensures { result ≡ allowed served wanted misses }
{
    meaning::is_well_formed(served)
        && meaning::is_well_formed(wanted)
        && meaning::is_within_range(misses)
        && is_divided(served, wanted)
        && Leaf {
            served,
            wanted,
            misses,
        }
        .loses_few()
}

// What a soft leaf is served, what it wants and what it may miss: two well-formed types, and misses within their range.
#[derive(Clone, Copy)]
struct Leaf {
    served: SlotType,
    wanted: SlotType,
    misses: Misses,
    ghost served_fits: { well_formed served ≡ true },
    ghost wanted_fits: { well_formed wanted ≡ true },
    ghost misses_fit: { within_range misses ≡ true },
}

impl Leaf {
    // The same as the hard question about windows.
    #[tactic(auto, using(crate::proofs::Answers::misses_fit))]
    fn loses_few(self) -> bool
        ensures { result ≡ loses_few self.served self.wanted self.misses }
    {
        let k = self.windows_in();
        let kept = SlotType {
            c: k - self.windows_lost(),
            t: k,
        };
        let Misses { d, w } = self.misses;
        let asked = SlotType { c: w - d, t: w };
        matches!(
            types::judge(Kind::Aligned, kept, Kind::Aligned, asked),
            Ok(Verdict::Holds(_))
        )
    }

    // K, the wanted windows in a served period, or 1 where none is shorter.
    #[tactic(auto, using(types::proofs::Windows::fits), unfolding(crate::specs::Formula::windows_in))]
    fn windows_in(self) -> u16
        ensures { result ≡ windows_in self.served self.wanted }
    {
        if is_multiple(self.served.t, self.wanted.t) {
            self.served.t / self.wanted.t
        } else {
            1
        }
    }

    // u, the windows that a served period can lose; where T divides T', the one window is lost where its served periods owe it less than C'.
    #[tactic(auto, using(types::proofs::Windows::fits, crate::proofs::Answers::owed_small), unfolding(crate::specs::Formula::lost, crate::specs::Formula::lost_of_one))]
    fn windows_lost(self) -> u16
        ensures { result ≡ lost self.served self.wanted }
    {
        if is_multiple(self.served.t, self.wanted.t) {
            self.lost_of_many()
        } else {
            u16::from(self.wanted.t / self.served.t * self.served.c < self.wanted.c)
        }
    }

    // A lost window has at most C' − 1 slots, so each takes T' − (C' − 1) of the T − C slots that a served period may go without.
    #[tactic(auto, using(types::proofs::Windows::fits, crate::proofs::Lost::unasked, crate::proofs::Answers::asks_some))]
    fn lost_of_many(self) -> u16
        requires { divides self.wanted.t self.served.t ≡ true }
        ensures { result ≡ lost_of_many self.served self.wanted }
    {
        if self.wanted.c == 0 {
            return 0;
        }
        let all = self.served.t / self.wanted.t;
        let some = (self.served.t - self.served.c) / (self.wanted.t - (self.wanted.c - 1));
        some.min(all)
    }
}

// Whether a is a multiple of b, and b not 0.
#[tactic(auto, unfolding(crate::specs::Formula::divides))]
fn is_multiple(a: u16, b: u16) -> bool
    ensures { result ≡ divides b a }
{
    b != 0 && a % b == 0
}

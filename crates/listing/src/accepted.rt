// A plan that was accepted, and its whole text: node count, node lines and slot lines.
ghost use Rattle.std.specs.Prelude.{◌≡◌, ◌*◌, ◌≤◌, true};
ghost use Rattle.ticks.specs.Times.{is_fit as is_fit_tick};
ghost use Rattle.plans.specs.Sound.{sound};
ghost use Rattle.rules.specs.Check.{is_fit};
ghost use Rattle.listing.specs.Text.{accepted_text};
ghost use Rattle.listing.specs.Page.{OnPage};

use crate::page::Page;
use plans::Plan;

// Where there is one of these the plan fits, so its types and its tick are well formed, and 64 bytes hold the answers of eight slots.
#[derive(Clone, Copy)]
pub struct Accepted {
    pub plan: Plan,
    ghost fits: { is_fit plan ≡ true },
    ghost sound: { sound plan ≡ true },
    ghost tick: { is_fit_tick plan.tick ≡ true },
    ghost few: { 8 * plan.cores ≤ 64 },
}

impl Accepted {
    #[tactic(auto, using(crate::proofs::Pages::joined), unfolding(crate::specs::Text::accepted_text))]
    pub fn page(self, bytes: &[u8]) -> Page
        requires { OnPage (accepted_text bytes.now self.plan) }
        ensures { result ≡ accepted_text bytes.now self.plan }
    {
        let mut page = Page::blank();
        page.put(b"accepted ");
        page.put_marked(self.plan.size as u64, b'\n');
        self.put_nodes(&mut page, bytes);
        self.put_slots(&mut page);
        page
    }
}

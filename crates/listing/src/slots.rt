// The lines of the first eight slots, all cores supplied and nobody declining: number, start, and per supply the leaf, `-` idle or `x` not supplied.
ghost use Rattle.std.specs.Prelude.{◌≡◌, ◌++◌, ◌*◌, ◌<◌, length};
ghost use Rattle.ticks.specs.Times.{begins};
ghost use Rattle.layout.specs.Layout.{lays};
ghost use Rattle.listing.specs.Text.{space, first_eight, answer_text, answer_part, slot_line};
ghost use Rattle.listing.specs.Page.{OnPage};

use crate::accepted::Accepted;
use crate::page::Page;
use dispatch::Setting;

impl Accepted {
    // A line for each of the first eight slots.
    #[tactic(auto, using(crate::proofs::Pages::joined, crate::proofs::SlotLines::length_first_eight), unfolding(layout::specs::Layout::lays))]
    pub fn put_slots(self, page: &mut Page)
        requires { OnPage (page.old ++ lays (slot_line self.plan (first_eight self.plan)) 8) }
        ensures { page.new ≡ page.old ++ lays (slot_line self.plan (first_eight self.plan)) 8 }
    {
        let mut room = [0; 64];
        let grants = &mut room[..8 * self.plan.cores];
        self.give(grants);
        for n in 0..8 {
            self.put_slot(page, grants, n);
        }
    }

    // The answers of the first eight slots from a fresh start, slot by slot, with the switch off.
    fn give(self, grants: &mut [u8])
        requires { length grants.old ≡ 8 * self.plan.cores }
        ensures { grants.new ≡ first_eight self.plan }
    {
        let mut state = dispatch::fresh(self.plan).unwrap();
        dispatch::run(
            Setting::Off,
            self.plan,
            &mut state,
            &[255; 8],
            &[0; 8],
            grants,
        )
        .unwrap();
    }

    #[tactic(auto, using(crate::proofs::Pages::joined), unfolding(crate::specs::Text::slot_line))]
    fn put_slot(self, page: &mut Page, grants: &[u8], n: usize)
        requires few { n < 8 }
        requires given { length grants.now ≡ 8 * self.plan.cores }
        requires room { OnPage (page.old ++ slot_line self.plan grants.now n) }
        ensures { page.new ≡ page.old ++ slot_line self.plan grants.now n }
    {
        page.put(b"slot ");
        page.put_marked(n as u64, b' ');
        page.put_number(self.start_of(n));
        put_answers(page, grants, self.plan.cores, n);
        page.put_byte(b'\n');
    }

    // When slot n begins, which is early enough to be no refusal.
    fn start_of(self, n: usize) -> u64
        requires { n < 8 }
        ensures { result ≡ begins self.plan.tick n }
    {
        ticks::start(self.plan.tick, n as u64).unwrap()
    }
}

// The answers of slot n, one for each core.
#[tactic(auto, using(crate::proofs::Pages::joined, crate::proofs::SlotLines::length_of_slot, crate::proofs::SlotLines::part_is), unfolding(layout::specs::Layout::lays))]
fn put_answers(page: &mut Page, grants: &[u8], cores: usize, n: usize)
    requires few { n < 8 }
    requires given { length grants.now ≡ 8 * cores }
    requires room { OnPage (page.old ++ lays (answer_part grants.now cores n) cores) }
    ensures { page.new ≡ page.old ++ lays (answer_part grants.now cores n) cores }
{
    for grant in &grants[n * cores..(n + 1) * cores] {
        put_answer(page, *grant);
    }
}

// One answer, behind a space.
#[tactic(auto, using(crate::proofs::Pages::joined), unfolding(crate::specs::Text::answer_text))]
fn put_answer(page: &mut Page, grant: u8)
    requires { OnPage (page.old ++ (space ++ answer_text grant)) }
    ensures { page.new ≡ page.old ++ (space ++ answer_text grant) }
{
    page.put_byte(b' ');
    match grant {
        254 => page.put_byte(b'-'),
        255 => page.put_byte(b'x'),
        leaf => page.put_number(leaf as u64),
    }
}

// The node lines: number, name, depth, served type, least ones in a wanted window.
ghost use Rattle.std.specs.Prelude.{◌≡◌, ◌++◌, ◌<◌};
ghost use Rattle.layout.specs.Layout.{lays};
ghost use Rattle.listing.specs.Text.{decimal, space, slash, depth_of, least_of, node_line};
ghost use Rattle.listing.specs.Page.{OnPage};

use crate::accepted::Accepted;
use crate::page::Page;
use meaning::{Kind, SlotType};
use plans::{Parent, Plan};
use types::Verdict;

impl Accepted {
    // A line for each node.
    #[tactic(auto, using(crate::proofs::Pages::joined), unfolding(layout::specs::Layout::lays))]
    pub fn put_nodes(self, page: &mut Page, s: &[u8])
        requires { OnPage (page.old ++ lays (node_line s.now self.plan) self.plan.size) }
        ensures { page.new ≡ page.old ++ lays (node_line s.now self.plan) self.plan.size }
    {
        for i in 0..self.plan.size {
            self.put_node(page, s, i);
        }
    }

    #[tactic(auto, using(crate::proofs::Pages::joined), unfolding(crate::specs::Text::node_line))]
    fn put_node(self, page: &mut Page, s: &[u8], i: usize)
        requires there { i < self.plan.size }
        requires room { OnPage (page.old ++ node_line s.now self.plan i) }
        ensures { page.new ≡ page.old ++ node_line s.now self.plan i }
    {
        put_head(page, i, reader::name(s, i));
        page.put_marked(depth_of(self.plan, i), b' ');
        put_type(page, plans::node_at(&self.plan, i).served);
        page.put_marked(self.least_of(i) as u64, b'\n');
    }

    // The least ones that node i has in a wanted window. Its types are well formed, so the verdict is no refusal.
    fn least_of(self, i: usize) -> u16
        requires { i < self.plan.size }
        ensures { result ≡ least_of self.plan i }
    {
        let node = plans::node_at(&self.plan, i);
        let kind = plans::wanted_as(node.kind);
        match types::judge(Kind::Aligned, node.served, kind, node.wanted).unwrap() {
            Verdict::Holds(ones) | Verdict::Short(ones) => ones,
        }
    }
}

// Number and name.
fn put_head(page: &mut Page, i: usize, name: &[u8])
    requires { OnPage (page.old ++ (decimal i ++ space ++ name.now ++ space)) }
    ensures { page.new ≡ page.old ++ (decimal i ++ space ++ name.now ++ space) }
{
    page.put_marked(i as u64, b' ');
    page.put(name);
    page.put_byte(b' ');
}

// C and T.
fn put_type(page: &mut Page, a: SlotType)
    requires { OnPage (page.old ++ (decimal a.c ++ slash ++ decimal a.t ++ space)) }
    ensures { page.new ≡ page.old ++ (decimal a.c ++ slash ++ decimal a.t ++ space) }
{
    page.put_marked(a.c as u64, b'/');
    page.put_marked(a.t as u64, b' ');
}

// How many steps up lead from node i to a supply.
fn depth_of(plan: Plan, i: usize) -> u64
    ensures { result ≡ depth_of plan i }
{
    let mut at = i;
    for steps in 0..8 {
        match plans::node_at(&plan, at).parent {
            Parent::Supply(_) => return steps + 1,
            Parent::Node(h) => at = usize::from(h),
        }
    }
    8
}

// Prints, of each leaf, what it wants and how many slots it received in each of its wanted windows inside a run.
use plans::{NodeKind, Plan};
use std::io;

// The leaves of the plan, by the answers of a run. The windows of an aligned leaf start at the multiples of its wanted T, those of a sliding one at every
// slot. A host has none.
pub fn all(rt: &impl Print, plan: Plan, answers: &[u8]) -> io::Result<()> {
    for (i, node) in plan.nodes.iter().take(plan.size).enumerate() {
        let step = match node.kind {
            NodeKind::AlignedLeaf => node.wanted.t,
            NodeKind::SlidingLeaf => 1,
            NodeKind::Host => continue,
        };
        let c = node.wanted.c;
        let t = node.wanted.t;
        print!(rt; ", leaf {i} wants {c}/{t} received")?;
        let cores = plan.cores.min(8);
        windows(rt, answers, i, t as usize * cores, step as usize * cores)?;
    }
    Ok(())
}

// How many of the answers name leaf i, `size` answers at a time from every `step`-th on.
fn windows(rt: &impl Print, answers: &[u8], i: usize, size: usize, step: usize) -> io::Result<()> {
    if step == 0 || size < step {
        return Ok(());
    }
    for window in answers.windows(size).step_by(step) {
        let received = window
            .iter()
            .filter(|answer| **answer as usize == i)
            .count();
        print!(rt; " {received}")?;
    }
    Ok(())
}

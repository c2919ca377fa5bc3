// Whether a value keeps 2 to 7 and 19.
ghost use Rattle.std.specs.Prelude.{◌≡◌};
ghost use Rattle.plans.specs.Sound.{all, counts, is_edition, borne, plain, sound_supply, sound_node, sound};

use crate::lookup::{node_at, supply_at};
use crate::tree::{is_parent_allowed, is_within};
use crate::{NO_MISSES, NodeKind, Plan};
use meaning::Misses;

#[tactic(auto, unfolding(crate::specs::Sound::sound))]
pub fn is_sound(plan: Plan) -> bool
    ensures { result ≡ sound plan }
{
    is_edition(plan.edition)
        && is_count(plan.cores, 8)
        && is_count(plan.size, 64)
        && ticks::is_fit(plan.tick)
        && are_supplies_sound(&plan)
        && are_nodes_sound(&plan)
}

// Whether an edition is one that there is.
#[tactic(auto, unfolding(crate::specs::Sound::is_edition))]
pub fn is_edition(n: u8) -> bool
    ensures { result ≡ is_edition n }
{
    n == 1 || n == 2
}

// Whether a count is from 1 to `most`.
#[tactic(auto, unfolding(crate::specs::Sound::counts))]
pub fn is_count(n: usize, most: usize) -> bool
    ensures { result ≡ counts n most }
{
    (1..=most).contains(&n)
}

fn are_supplies_sound(plan: &Plan) -> bool
    ensures { result ≡ all (sound_supply plan.now) plan.now.cores }
{
    (0..plan.cores).all(|s| meaning::is_well_formed(supply_at(plan, s)))
}

fn are_nodes_sound(plan: &Plan) -> bool
    ensures { result ≡ all (sound_node plan.now) plan.now.size }
{
    (0..plan.size).all(|i| is_node_sound(plan, i))
}

#[tactic(auto, unfolding(crate::specs::Sound::sound_node, crate::specs::Sound::sound_misses))]
fn is_node_sound(plan: &Plan, i: usize) -> bool
    ensures { result ≡ sound_node plan.now i }
{
    let node = node_at(plan, i);
    is_parent_allowed(plan, i)
        && is_within(plan, i)
        && meaning::is_well_formed(node.wanted)
        && are_misses_borne(node.kind, node.misses)
        && is_plain(plan.edition, node.misses)
        && meaning::is_well_formed(node.served)
}

// Whether a node of this kind can have these misses: D and W in range, and none for a host.
#[tactic(auto, unfolding(crate::specs::Sound::borne, crate::specs::Plan::hosting))]
pub fn are_misses_borne(kind: NodeKind, m: Misses) -> bool
    ensures { result ≡ borne kind m }
{
    meaning::is_within_range(m) && (kind != NodeKind::Host || m.d == 0)
}

// Whether a node of this edition can have these misses: in edition 1, D 0 and W 1.
#[tactic(auto, unfolding(crate::specs::Sound::plain))]
fn is_plain(edition: u8, m: Misses) -> bool
    ensures { result ≡ plain edition m }
{
    edition != 1 || m == NO_MISSES
}

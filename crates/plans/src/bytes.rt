// The numbers that stand for kinds and parents, in a plan file and in an array that C lends: both ways.
ghost use Rattle.std.specs.Prelude.{◌≡◌};
ghost use Rattle.plans.specs.Bytes.{kind_byte, kind_named, parent_byte, parent_of_byte};

use crate::{NodeKind, Parent};

impl From<NodeKind> for u8 {
    ghost from_gives = { λ kind b. b ≡ kind_byte kind };

    #[tactic(auto, unfolding(crate::specs::Bytes::kind_byte))]
    fn from(kind: NodeKind) -> u8 {
        kind as u8
    }
}

impl NodeKind {
    // The kind that a number stands for; one that stands for none is taken for a host.
    #[tactic(auto, unfolding(crate::specs::Bytes::kind_named))]
    pub fn named(n: u64) -> NodeKind
        ensures { result ≡ kind_named n }
    {
        match n {
            0 => NodeKind::AlignedLeaf,
            1 => NodeKind::SlidingLeaf,
            _ => NodeKind::Host,
        }
    }
}

impl From<Parent> for u16 {
    ghost from_gives = { λ parent n. n ≡ parent_byte parent };

    #[tactic(auto, unfolding(crate::specs::Bytes::parent_byte))]
    fn from(parent: Parent) -> u16 {
        match parent {
            Parent::Supply(s) => s.into(),
            Parent::Node(h) => 128 + u16::from(h),
        }
    }
}

// The parent that a byte names, whether it is there or not.
impl From<u8> for Parent {
    ghost from_gives = { λ b parent. parent ≡ parent_of_byte b };

    #[tactic(auto, unfolding(crate::specs::Bytes::parent_of_byte))]
    fn from(b: u8) -> Parent {
        match b {
            0..=127 => Parent::Supply(b),
            128..=255 => Parent::Node(b - 128),
        }
    }
}

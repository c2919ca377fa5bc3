// A plan value that may be asked about its parents, and a parent with its children.
ghost use Rattle.std.specs.Prelude.{◌≡◌, true};
ghost use Rattle.meaning.specs.Types.{well_formed};
ghost use Rattle.plans.specs.Plan.{own_type};
ghost use Rattle.plans.specs.Sound.{sound};

use plans::{Parent, Plan};

// A plan value that keeps 2 to 7 and 19.
#[derive(Clone, Copy)]
pub struct SoundPlan {
    pub plan: Plan,
    ghost sound: { sound plan ≡ true },
}

// A parent in a plan value that keeps 2 to 7 and 19, so that its own type is well formed too.
#[derive(Clone, Copy)]
pub struct Family {
    pub plan: Plan,
    pub parent: Parent,
    ghost sound: { sound plan ≡ true },
    ghost formed: { well_formed (own_type plan parent) ≡ true },
}

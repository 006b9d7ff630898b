// The link rules and those of states, fields and counts, over the whole tree.
ghost use Rattle.std.specs.Prelude.{◌≡◌};
ghost use Rattle.tree.specs.Broken as rules;

use crate::Ui;
use arena::fields::{fields_ok, owners_well};
use arena::rules::links_well;
use boxes::state;

// Whether the tree breaks a rule, the link rules or another. Its longer tests are not built into it: the compiler follows some hundred
// uses of a reference to see that none is kept, and where it sees that, a read hands its caller's tree on and copies none.
#[tactic(auto, unfolding(crate::specs::Broken::broken, crate::specs::Broken::links_well))]
pub fn broken(u: &Ui) -> bool
    ensures { result ≡ rules.broken u.now }
{
    let n = u.limits.nodes;
    let well = (1 <= n)
        && (n <= 128)
        && (u.patch_count <= 64)
        && links_well(n, &u.slots, u.free, u.live)
        && state::states_well(u.patch_count, n, &u.states)
        && state::stated_well(n, u.stated, u.stated_count)
        && (u.output_count <= n)
        && owners_well(&u.fields)
        && fields_ok(&u.fields);
    !well
}

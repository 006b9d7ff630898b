// The calls that read, on a tree that is lent.
ghost use Rattle.std.specs.Prelude.{◌≡◌};
ghost use Rattle.text.specs.Refusal.{answered};
ghost use Rattle.desk.specs.Events.{absorb, metres};

use crate::fold;
use arithmetic::fold::StateHash;
use field::NodeId;
use text::refusal::Refusal;
use tree::{Ui, fields, rules};

// The fingerprint: the interaction on a fold that stands at some state.
#[inline(never)]
#[tactic(auto, unfolding(crate::specs::Events::absorb, tree::specs::Calls::guarded))]
pub(crate) fn absorb(u: &Ui, hash: StateHash) -> Result<u64, Refusal>
    ensures { answered 0 result ≡ (absorb u.now hash).answer }
{
    if rules::broken(u) {
        return Err(Refusal::Broken);
    }
    Ok(fold::absorb_interaction(hash, u.interaction).finish())
}

// The field of the node read as metres, in whole centimetres.
#[inline(never)]
#[tactic(auto, using(tree::proofs::TakenLaws::a_read_is_refused, tree::proofs::TakenLaws::a_read_finds_the_field), unfolding(crate::specs::Events::metres))]
pub(crate) fn metres(u: &Ui, d: NodeId) -> Result<u32, Refusal>
    ensures { answered 0 result ≡ (metres u.now d).answer }
{
    let i = u.field_place(d)?;
    fields::field_at(&u.fields, i).metres()
}

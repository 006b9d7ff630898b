// Events and outputs on a tree that is lent and changed in place: a refused call leaves it as it is.
ghost use Rattle.std.specs.Prelude.{◌≡◌};
ghost use Rattle.tree.specs.Answers.{changed_of};
ghost use Rattle.desk.specs.Answers.{taken_of};
ghost use Rattle.desk.specs.Events.{handle, next_output};

use crate::{UiEvent, events, outputs, wearing};
use field::NodeId;
use text::refusal::Refusal;
use tree::{Ui, input, rules};

// An event, and the bits refreshed after it.
#[inline(never)]
#[tactic(auto, unfolding(crate::specs::Events::handle, tree::specs::Calls::guarded))]
pub(crate) fn handle(u: &mut Ui, event: UiEvent) -> Result<(), Refusal>
    ensures { changed_of (record { tree = u.new; answer = result }) ≡ handle u.old event }
{
    if rules::broken(u) {
        return Err(Refusal::Broken);
    }
    let pointed = events::pointer_after(u.interaction.pointer, event);
    let hit = input::under_pointer(u, pointed);
    events::apply(u, hit, event);
    wearing::refresh_states(u, hit);
    Ok(())
}

// The oldest waiting output, which no longer waits.
#[inline(never)]
#[tactic(auto, using(tree::proofs::Prechecks::few_slots, tree::proofs::Prechecks::few_waiting, crate::proofs::OutputSteps::the_front), unfolding(crate::specs::Events::next_output, tree::specs::Calls::guarded))]
pub(crate) fn next_output(u: &mut Ui) -> Result<Option<NodeId>, Refusal>
    ensures { taken_of (record { tree = u.new; answer = result }) ≡ next_output u.old }
{
    if rules::broken(u) {
        return Err(Refusal::Broken);
    }
    if u.output_count == 0 {
        return Ok(None);
    }
    let oldest = u.outputs[0];
    outputs::drop_oldest(u);
    Ok(Some(oldest))
}

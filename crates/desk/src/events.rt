// What an event does to the tree, before the bits are refreshed. The tree is lent, since a whole one is costly to pass on.
ghost use Rattle.std.specs.Prelude.{◌≡◌, ◌<◌, ◌≤◌, [], ◌∷◌, ◌++◌, Option, Some};
ghost use Rattle.tree.specs.Fields.{field_of};
ghost use Rattle.tree.specs.Trees.{limit_of, waiting_of, with_interaction, with_waiting};
ghost use Rattle.tree.specs.declared.Ui.{Ui};
ghost use Rattle.desk.specs.Events as events;
ghost use Rattle.desk.specs.Events.{released_on, keyed_field, edit_focused};

use crate::{Key, UiEvent, fold};
use arithmetic::scalar;
use field::{Field, NodeId};
use tree::{Interaction, Pixel, Ui, fields, links};

// The interaction after an activation of the node, whose output is queued or lost.
#[tactic(auto, unfolding(crate::specs::Events::activated))]
fn activated(a: Interaction, d: NodeId, lost: bool) -> Interaction
    ensures { result ≡ events.activated a d lost }
{
    let overflowed = if lost {
        scalar::increment(a.overflowed)
    } else {
        a.overflowed
    };
    Interaction {
        pressed: None,
        focus: Some(d),
        activations: scalar::increment(a.activations),
        decisions: fold::decision_fold(a.decisions, d),
        overflowed,
        ..a
    }
}

// An output after those that wait.
#[tactic(auto, using(crate::proofs::OutputSteps::queued_last, crate::proofs::OutputSteps::one_more_waits), unfolding(tree::specs::Trees::with_waiting))]
fn queue(u: &mut Ui, d: NodeId)
    requires { u.old.output_count < 128 }
    ensures { u.new ≡ with_waiting u.old (waiting_of u.old ++ d ∷ []) }
{
    u.outputs[u.output_count as usize] = d;
    u.output_count += 1;
}

// The node is activated.
#[tactic(auto, unfolding(crate::specs::Events::activate, tree::specs::Trees::with_interaction, tree::specs::Trees::with_waiting))]
fn activate(u: &mut Ui, d: NodeId)
    requires { limit_of u.old ≤ 128 }
    ensures { u.new ≡ events.activate u.old d }
{
    let waits = u.output_count < u.limits.nodes;
    u.interaction = activated(u.interaction, d, !waits);
    if waits {
        queue(u, d);
    }
}

// A release with a node, or none, under the pointer.
#[tactic(auto, unfolding(tree::specs::Trees::with_interaction))]
fn release(u: &mut Ui, hit: Option<NodeId>)
    requires { limit_of u.old ≤ 128 }
    ensures { u.new ≡ released_on u.old hit u.old.interaction.pressed }
{
    match u.interaction.pressed {
        Some(d) if hit == Some(d) => activate(u, d),
        _ => u.interaction.pressed = None,
    }
}

// The field after a key.
fn keyed_field(f: Field, key: Key) -> Field
    ensures { result ≡ keyed_field key f }
{
    match key {
        Key::Char(c) => f.insert(c),
        Key::Op(op) => f.edit(op),
    }
}

// Whether an edit changed something: length or caret.
// Kept: the derived `!=` compares bytes and owner too.
#[tactic(auto, unfolding(arithmetic::specs::Tests::same))]
fn has_changed(f: Field, g: Field) -> bool
    ensures { result ≡ events.has_changed f g }
{
    f.len != g.len || f.cursor != g.cursor
}

// A key on the node's field, where it has one.
#[tactic(auto, unfolding(tree::specs::Trees::with_interaction))]
fn edit_field(u: &mut Ui, d: NodeId, key: Key)
    ensures { u.new ≡ events.edit_field u.old d key (field_of d u.old.fields) }
{
    let Some(i) = fields::field_place(&u.fields, d) else {
        return
    };
    let f = fields::field_at(&u.fields, i);
    let g = keyed_field(f, key);
    fields::set_field(&mut u.fields, i, g);
    if has_changed(f, g) {
        u.interaction.edit_fold = fold::edit_fold(u.interaction.edit_fold, d, key);
    }
}

// A key on the field of the node in focus, where the node is live.
fn edit_focused(u: &mut Ui, key: Key)
    ensures { u.new ≡ edit_focused u.old key u.old.interaction.focus }
{
    match u.interaction.focus {
        Some(d) if links::is_live(u.limits.nodes, &u.slots, d) => edit_field(u, d, key),
        _ => {}
    }
}

// Where the pointer is after an event.
#[tactic(auto, using(crate::proofs::EventLaws::other_events_keep_the_pointer), unfolding(tree::specs::Trees::with_interaction))]
pub(crate) fn pointer_after(pointer: Option<Pixel>, event: UiEvent) -> Option<Pixel>
    ensures { (u : Ui) (hit : Option NodeId) → u.interaction.pointer ≡ pointer → (events.applied_event u hit event).interaction.pointer ≡ result }
{
    match event {
        UiEvent::PointerMoved { x, y } => Some(Pixel { x, y }),
        _ => pointer,
    }
}

// An event, with the node that is under the pointer.
#[tactic(auto, unfolding(tree::specs::Trees::with_interaction))]
pub(crate) fn apply(u: &mut Ui, hit: Option<NodeId>, event: UiEvent)
    requires { limit_of u.old ≤ 128 }
    ensures { u.new ≡ events.applied_event u.old hit event }
{
    match event {
        UiEvent::PointerMoved { x, y } => u.interaction.pointer = Some(Pixel { x, y }),
        UiEvent::PointerPressed => u.interaction.pressed = hit,
        UiEvent::PointerReleased => release(u, hit),
        UiEvent::TextEntered { ch } => edit_focused(u, Key::Char(ch)),
        UiEvent::Edit { op } => edit_focused(u, Key::Op(op)),
    }
}

// The desk: events, outputs, the fingerprint, metres and marks by node.
#![tactic(auto)]

mod calls;
mod events;
mod fold;
mod marks;
mod outputs;
mod reads;
mod wearing;

ghost use Rattle.std.specs.Prelude.{◌≡◌};
ghost use Rattle.text.specs.Refusal.{answered};
ghost use Rattle.tree.specs.Answers.{changed_of};
ghost use Rattle.desk.specs.Answers.{marked_text_of, taken_of};
ghost use Rattle.desk.specs.Events as events;
ghost use Rattle.desk.specs.Marks as marked;

use arithmetic::fold::StateHash;
pub use boxes::{Key, UiEvent};
use field::NodeId;
pub use marks::MarkedText;
use text::refusal::Refusal;
use tree::Ui;
use tree::answers::{Changed, Reply};

// The oldest output is taken: its node, or none, and the tree without it.
pub type Taken = Reply<Option<NodeId>>;

// An event, and the bits refreshed after it.
pub fn handle(mut u: Ui, event: UiEvent) -> Changed
    ensures { changed_of result ≡ events.handle u event }
{
    let answer = calls::handle(&mut u, event);
    Reply { tree: u, answer }
}

// The oldest waiting output, which no longer waits.
pub fn next_output(mut u: Ui) -> Taken
    ensures { taken_of result ≡ events.next_output u }
{
    let answer = calls::next_output(&mut u);
    Reply { tree: u, answer }
}

// The fingerprint: the interaction on a fold that stands at some state.
pub fn absorb(u: Ui, hash: StateHash) -> Result<u64, Refusal>
    ensures { answered 0 result ≡ (events.absorb u hash).answer }
{
    reads::absorb(&u, hash)
}

// The field of the node read as metres, in whole centimetres.
pub fn metres(u: Ui, d: NodeId) -> Result<u32, Refusal>
    ensures { answered 0 result ≡ (events.metres u d).answer }
{
    reads::metres(&u, d)
}

// The text of the node's field is confirmed, where it reads as metres.
pub fn confirm(mut u: Ui, d: NodeId) -> Changed
    ensures { changed_of result ≡ marked.confirm u d }
{
    let answer = marks::confirm(&mut u, d);
    Reply { tree: u, answer }
}

// The next ship: texts and carets stay, and no field is confirmed any more.
pub fn next_ship(mut u: Ui) -> Changed
    ensures { changed_of result ≡ marked.next_ship u }
{
    let answer = marks::next_ship(&mut u);
    Reply { tree: u, answer }
}

// For the ramp: the confirmed text of the node's field as metres, in whole centimetres.
pub fn confirmed_metres(u: Ui, d: NodeId) -> Result<u32, Refusal>
    ensures { answered 0 result ≡ (marked.confirmed_metres u d).answer }
{
    marks::confirmed_metres(&u, d)
}

// For the harbour office: the text of the node's field with caret and mark, whatever the mark.
pub fn marked_text(u: Ui, d: NodeId) -> Result<MarkedText, Refusal>
    ensures { marked_text_of result ≡ (marked.marked_text u d).answer }
{
    marks::marked_text(&u, d)
}

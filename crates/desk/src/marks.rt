// Confirmed draughts: the marks of fields, by node, on a tree that is lent.
ghost use Rattle.std.specs.Prelude.{◌≡◌};
ghost use Rattle.text.specs.Refusal.{answered};
ghost use Rattle.tree.specs.Answers.{changed_of};
ghost use Rattle.desk.specs.Answers.{marked_text_of};
ghost use Rattle.desk.specs.Marks as calls;

use field::{Mark, NodeId};
use text::refusal::Refusal;
use tree::{Ui, fields, rules};

// A text with its caret and mark: the bytes, 0 past the length.
// Kept: an array with its length, as the field's own is.
#[derive(Clone, Copy, Debug, PartialEq, Eq)]
pub struct MarkedText {
    pub bytes: [u8; 64],
    pub len: u8,
    pub cursor: u8,
    pub mark: Mark,
}

// The text of the node's field is confirmed, where it reads as metres.
#[inline(never)]
#[tactic(auto, using(tree::proofs::TakenLaws::a_read_is_refused, tree::proofs::TakenLaws::a_read_finds_the_field), unfolding(crate::specs::Marks::confirm, tree::specs::Trees::with_fields))]
pub(crate) fn confirm(u: &mut Ui, d: NodeId) -> Result<(), Refusal>
    ensures { changed_of (record { tree = u.new; answer = result }) ≡ calls.confirm u.old d }
{
    let i = u.field_place(d)?;
    let f = fields::field_at(&u.fields, i);
    f.metres()?;
    fields::set_field(&mut u.fields, i, f.confirmed());
    Ok(())
}

// The next ship: texts and carets stay, and no field is confirmed any more.
#[inline(never)]
#[tactic(auto, unfolding(crate::specs::Marks::next_ship, tree::specs::Calls::guarded, tree::specs::Trees::with_fields))]
pub(crate) fn next_ship(u: &mut Ui) -> Result<(), Refusal>
    ensures { changed_of (record { tree = u.new; answer = result }) ≡ calls.next_ship u.old }
{
    if rules::broken(u) {
        return Err(Refusal::Broken);
    }
    fields::unconfirm(&mut u.fields);
    Ok(())
}

// For the ramp: the confirmed text of the node's field as metres, in whole centimetres.
#[inline(never)]
#[tactic(auto, using(tree::proofs::TakenLaws::a_read_is_refused, tree::proofs::TakenLaws::a_read_finds_the_field), unfolding(crate::specs::Marks::confirmed_metres))]
pub(crate) fn confirmed_metres(u: &Ui, d: NodeId) -> Result<u32, Refusal>
    ensures { answered 0 result ≡ (calls.confirmed_metres u.now d).answer }
{
    let i = u.field_place(d)?;
    fields::field_at(&u.fields, i).confirmed_metres()
}

// For the harbour office: the text of the node's field with caret and mark, whatever the mark.
#[inline(never)]
#[tactic(auto, using(tree::proofs::TakenLaws::a_read_is_refused, tree::proofs::TakenLaws::a_read_finds_the_field), unfolding(crate::specs::Marks::marked_text))]
pub(crate) fn marked_text(u: &Ui, d: NodeId) -> Result<MarkedText, Refusal>
    ensures { marked_text_of result ≡ (calls.marked_text u.now d).answer }
{
    let i = u.field_place(d)?;
    let f = fields::field_at(&u.fields, i);
    Ok(MarkedText {
        bytes: f.shown(),
        len: f.len,
        cursor: f.cursor,
        mark: f.mark,
    })
}

// The calls that read, on a tree that is lent. Each is a function of its own that is not built into its caller, which then hands its own
// tree on and copies none.
ghost use Rattle.std.specs.Prelude.{◌≡◌, false, None};
ghost use Rattle.text.specs.Refusal.{answered};
ghost use Rattle.boxes.specs.Styles.{no_rect};
ghost use Rattle.tree.specs.Answers.{field_text_of};
ghost use Rattle.tree.specs.Calls.{live, rect, first_child, next_sibling, field_text, field_cursor};

use crate::answers::FieldText;
use crate::{Rect, Ui, fields, links, nodes, rules};
use boxes::nodes::rect_at;
use field::NodeId;
use text::refusal::Refusal;

// Whether the id names a live node.
#[inline(never)]
#[tactic(auto, unfolding(crate::specs::Calls::live, crate::specs::Calls::guarded))]
pub(crate) fn is_live(u: &Ui, d: NodeId) -> Result<bool, Refusal>
    ensures { answered false result ≡ (live u.now d).answer }
{
    if rules::broken(u) {
        return Err(Refusal::Broken);
    }
    Ok(links::is_live(u.limits.nodes, &u.slots, d))
}

// The node's box, of the last pass.
#[inline(never)]
#[tactic(auto, unfolding(crate::specs::Calls::rect, crate::specs::Calls::on_live, crate::specs::Calls::guarded, crate::specs::Answers::precheck))]
pub(crate) fn rect(u: &Ui, d: NodeId) -> Result<Rect, Refusal>
    ensures { answered no_rect result ≡ (rect u.now d).answer }
{
    u.precheck(d)?;
    Ok(rect_at(&u.layout, d.index))
}

// The node's next sibling.
#[inline(never)]
#[tactic(auto, unfolding(crate::specs::Calls::next_sibling, crate::specs::Calls::on_live, crate::specs::Calls::guarded, crate::specs::Answers::precheck))]
pub(crate) fn next_sibling(u: &Ui, d: NodeId) -> Result<Option<NodeId>, Refusal>
    ensures { answered None result ≡ (next_sibling u.now d).answer }
{
    u.precheck(d)?;
    let s = links::slot_at(&u.slots, d.index);
    Ok(nodes::neighbour(&u.slots, s.next_sibling))
}

// The node's first child; a dead node has none.
#[inline(never)]
#[tactic(auto, unfolding(crate::specs::Calls::first_child, crate::specs::Calls::guarded))]
pub(crate) fn first_child(u: &Ui, d: NodeId) -> Result<Option<NodeId>, Refusal>
    ensures { answered None result ≡ (first_child u.now d).answer }
{
    if rules::broken(u) {
        return Err(Refusal::Broken);
    }
    if !links::is_live(u.limits.nodes, &u.slots, d) {
        return Ok(None);
    }
    let s = links::slot_at(&u.slots, d.index);
    Ok(nodes::neighbour(&u.slots, s.first_child))
}

// The text of the node's field, 0 past its length.
#[inline(never)]
#[tactic(auto, using(crate::proofs::TakenLaws::a_read_is_refused, crate::proofs::TakenLaws::a_read_finds_the_field), unfolding(crate::specs::Calls::field_text))]
pub(crate) fn field_text(u: &Ui, d: NodeId) -> Result<FieldText, Refusal>
    ensures { field_text_of result ≡ (field_text u.now d).answer }
{
    let i = u.field_place(d)?;
    let f = fields::field_at(&u.fields, i);
    Ok(FieldText {
        bytes: f.shown(),
        len: f.len,
    })
}

// Where the caret of the node's field stands.
#[inline(never)]
#[tactic(auto, using(crate::proofs::TakenLaws::a_read_is_refused, crate::proofs::TakenLaws::a_read_finds_the_field), unfolding(crate::specs::Calls::field_cursor))]
pub(crate) fn field_cursor(u: &Ui, d: NodeId) -> Result<u8, Refusal>
    ensures { answered 0 result ≡ (field_cursor u.now d).answer }
{
    let i = u.field_place(d)?;
    let f = fields::field_at(&u.fields, i);
    Ok(f.cursor)
}

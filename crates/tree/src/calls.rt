// The calls that give a tree, on one that is lent and changed in place: a refused call leaves it as it is. Each is a function of its own
// that is not built into its caller, so that a call by value copies the tree once in and once out.
ghost use Rattle.std.specs.Prelude.{◌≡◌, None};
ghost use Rattle.tree.specs.Answers.{changed_of, inserted_of};
ghost use Rattle.tree.specs.Calls.{insert, remove, make_field, take_field, solve, set_style, set_state_table, set_patch_pool};

use crate::{StatePatch, Style, Ui, Viewport, fields, links, nodes, rules, state, wearing};
use arena::links::NIL;
use arithmetic::scalar;
use boxes::layout;
use field::NodeId;
use text::refusal::Refusal;

// A new last child of a node.
#[inline(never)]
#[tactic(auto, using(crate::proofs::Prechecks::refused_at_once, crate::proofs::Prechecks::not_refused, crate::proofs::Prechecks::not_broken, crate::proofs::Prechecks::few_live, crate::proofs::Prechecks::free_inside), unfolding(crate::specs::Calls::insert, arithmetic::specs::Tests::same))]
pub(crate) fn insert(u: &mut Ui, parent: NodeId) -> Result<NodeId, Refusal>
    ensures { inserted_of (record { tree = u.new; answer = result }) ≡ insert u.old parent }
{
    u.precheck(parent)?;
    let index = u.free;
    if index == NIL {
        return Err(Refusal::Full);
    }
    let id = links::id_at(&u.slots, index);
    nodes::insert_at(u, parent.index);
    Ok(id)
}

// The node and all below it leave the tree.
#[inline(never)]
#[tactic(auto, using(crate::proofs::Prechecks::refused_at_once, crate::proofs::Prechecks::not_refused, crate::proofs::Prechecks::not_broken, crate::proofs::Prechecks::lives, crate::proofs::WholeTrees::the_walk_lists_the_subtree), unfolding(crate::specs::Calls::remove, crate::specs::Calls::remove_at, arithmetic::specs::Tests::same))]
pub(crate) fn remove(u: &mut Ui, d: NodeId) -> Result<(), Refusal>
    ensures { changed_of (record { tree = u.new; answer = result }) ≡ remove u.old d }
{
    u.precheck(d)?;
    if d.index == 0 {
        return Err(Refusal::Root);
    }
    nodes::remove_at(u, d.index);
    Ok(())
}

// A field for the node; one that it has stays.
#[inline(never)]
#[tactic(auto, unfolding(crate::specs::Calls::make_field, crate::specs::Calls::on_live, crate::specs::Calls::guarded, crate::specs::Answers::precheck))]
pub(crate) fn make_field(u: &mut Ui, d: NodeId) -> Result<(), Refusal>
    ensures { changed_of (record { tree = u.new; answer = result }) ≡ make_field u.old d }
{
    u.precheck(d)?;
    if fields::field_place(&u.fields, d).is_some() {
        return Ok(());
    }
    take_field(u, d)
}

// The first free field for a node that has none, after those of dead owners are cleared.
#[tactic(auto, using(crate::proofs::TakenLaws::none_free, crate::proofs::TakenLaws::some_free), unfolding(crate::specs::Trees::with_fields))]
fn take_field(u: &mut Ui, d: NodeId) -> Result<(), Refusal>
    ensures { changed_of (record { tree = u.new; answer = result }) ≡ take_field u.old d None }
{
    let mut cleared = u.fields;
    fields::reclaim(u.limits.nodes, &u.slots, &mut cleared);
    if fields::all_taken(&cleared) {
        return Err(Refusal::Full);
    }
    fields::claim(d, &mut cleared);
    u.fields = cleared;
    Ok(())
}

// A layout pass, where one is due or the viewport is another.
#[inline(never)]
#[tactic(auto, unfolding(crate::specs::Calls::solve, crate::specs::Calls::guarded, crate::specs::Trees::with_pass))]
pub(crate) fn solve(u: &mut Ui, view: Viewport) -> Result<(), Refusal>
    ensures { changed_of (record { tree = u.new; answer = result }) ≡ solve u.old view }
{
    if rules::broken(u) {
        return Err(Refusal::Broken);
    }
    if !u.dirty && layout::same_view(u.solved_for, view) {
        return Ok(());
    }
    layout::solve(&u.slots, &mut u.layout, view);
    u.layout_passes = scalar::increment(u.layout_passes);
    u.solved_for = view;
    u.dirty = false;
    Ok(())
}

// The node's base style.
#[inline(never)]
#[tactic(auto, using(crate::proofs::Prechecks::refused_at_once, crate::proofs::Prechecks::not_refused, crate::proofs::Prechecks::a_live_id_is_inside), unfolding(crate::specs::Calls::set_style))]
pub(crate) fn set_style(u: &mut Ui, d: NodeId, style: Style) -> Result<(), Refusal>
    ensures { changed_of (record { tree = u.new; answer = result }) ≡ set_style u.old d style }
{
    u.precheck(d)?;
    wearing::style_at(u, d.index, style);
    Ok(())
}

// The node's sixteen patch numbers.
#[inline(never)]
#[tactic(auto, using(crate::proofs::Prechecks::refused_at_once, crate::proofs::Prechecks::not_refused, crate::proofs::Prechecks::a_live_id_is_inside), unfolding(crate::specs::Calls::set_state_table))]
pub(crate) fn set_state_table(u: &mut Ui, d: NodeId, table: [u16; 16]) -> Result<(), Refusal>
    ensures { changed_of (record { tree = u.new; answer = result }) ≡ set_state_table u.old d table }
{
    u.precheck(d)?;
    if !state::table_in_pool(u.patch_count, &table) {
        return Err(Refusal::Foreign);
    }
    wearing::table_at(u, d.index, table);
    Ok(())
}

// The pool: the first `count` of the patches. Every table and all bits are cleared.
#[inline(never)]
#[tactic(auto, using(crate::proofs::Prechecks::few_slots), unfolding(crate::specs::Calls::set_patch_pool, crate::specs::Calls::guarded))]
pub(crate) fn set_patch_pool(
    u: &mut Ui,
    patches: &[StatePatch; 64],
    count: u32,
) -> Result<(), Refusal>
    ensures { changed_of (record { tree = u.new; answer = result }) ≡ set_patch_pool u.old patches.now count }
{
    if rules::broken(u) {
        return Err(Refusal::Broken);
    }
    if 64 < count {
        return Err(Refusal::Long);
    }
    wearing::set_pool(u, patches, count);
    Ok(())
}

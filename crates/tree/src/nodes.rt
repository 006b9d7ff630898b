// Nodes come and go: what an accepted insert or removal does to the tree.
ghost use Rattle.std.specs.Prelude.{cond, ◌≡◌, ◌≤◌, ◌<◌, None, Some};
ghost use Rattle.arena.specs.Slots.{id_at, unlink, NIL};
ghost use Rattle.arena.specs.Support.Lists.{walked};
ghost use Rattle.arithmetic.specs.Tests.{same};
ghost use Rattle.tree.specs.Calls.{insert_at, with_freed};

use crate::{Slot, Ui};
use arena::links;
use arena::links::NIL;
use boxes::{nodes, start};
use field::NodeId;

// A new last child of slot `parent`, in the first free slot.
#[tactic(auto, unfolding(crate::specs::Calls::insert_at, crate::specs::Trees::with_nodes))]
pub(crate) fn insert_at(u: &mut Ui, parent: u32)
    requires { (u.old.live ≤ 128) × (u.old.free < 128) }
    ensures { u.new ≡ insert_at u.old parent }
{
    let index = u.free;
    let k = index as usize;
    let s = links::slot_at(&u.slots, index);
    links::set_slot(&mut u.slots, index, nodes::taken(s, parent));
    links::link_last(&mut u.slots, parent, index);
    u.layout[k] = start::fresh_layout();
    u.states[k] = start::fresh_state();
    u.free = s.next_sibling;
    u.live += 1;
    u.dirty = true;
}

// Slot `index` and all below it leave the tree, as far as the list of 128 goes; their state slots are as new.
#[tactic(auto, unfolding(crate::specs::Trees::with_nodes))]
pub(crate) fn remove_at(u: &mut Ui, index: u32)
    ensures { u.new ≡ with_freed u.old (unlink u.old.slots index) (walked (unlink u.old.slots index) index) }
{
    links::unlink(&mut u.slots, index);
    let order = links::freed_order(&u.slots, index);
    u.free = links::free_listed(&mut u.slots, u.free, &order);
    nodes::reset_states(&mut u.states, &order);
    u.live = u.live.saturating_sub(order.count as u32);
    u.dirty = true;
}

// The node that a link leads to.
#[tactic(auto, unfolding(arithmetic::specs::Tests::same))]
pub(crate) fn neighbour(slots: &[Slot; 128], i: u32) -> Option<NodeId>
    ensures { result ≡ cond (same i NIL) None (Some (id_at slots.now i)) }
{
    if i == NIL {
        return None;
    }
    Some(links::id_at(slots, i))
}

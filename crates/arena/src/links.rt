// Slots and their links, over the array of slots, which is lent. An index that is no slot reads the zero slot and stores nothing.
ghost use Rattle.std.specs.Prelude.{◌≡◌, ◌≤◌};
ghost use Rattle.arena.specs.Slots.{at, put, is_live, id_at, link_last, idle, next_generation, freed};
ghost use Rattle.arena.specs.Slots as links;
ghost use Rattle.arena.specs.Support.Lists.{listed, added_all, back_order, walked};
ghost use Rattle.arithmetic.specs.Tests.{final_or};
ghost use Rattle.arena.specs.declared.Slot.{Slot};

use crate::Slot;
use crate::listed::Listed;
use field::NodeId;

// No neighbour.
// Kept: links are numbers of slots, with this one for none, as document 01's source has them; a slot that holds options is larger,
// and every rule would speak of two forms of each link.
pub const NIL: u32 = 4294967295;

// Slot i.
#[tactic(auto, unfolding(crate::specs::Slots::at))]
pub fn slot_at(slots: &[Slot; 128], i: u32) -> Slot
    ensures { result ≡ at slots.now i }
{
    slots.get(i as usize).copied().unwrap_or_default()
}

// Slot i is s from now on.
#[tactic(auto, unfolding(crate::specs::Slots::put))]
pub fn set_slot(slots: &mut [Slot; 128], i: u32, s: Slot)
    ensures { slots.new ≡ put slots.old i s }
{
    let k = i as usize;
    if k < slots.len() {
        slots[k] = s;
    }
}

// The id that names slot i.
pub fn id_at(slots: &[Slot; 128], i: u32) -> NodeId
    ensures { result ≡ id_at slots.now i }
{
    NodeId {
        index: i,
        generation: slot_at(slots, i).generation,
    }
}

// Whether the id names a live slot below the limit.
// Kept: `limit` and `slots` apart, here and above: a struct of both would be built of two fields of a tree at each call, and its contracts name both all the same.
#[tactic(auto, unfolding(crate::specs::Slots::is_live, arithmetic::specs::Tests::same))]
pub fn is_live(limit: u32, slots: &[Slot; 128], d: NodeId) -> bool
    ensures { result ≡ is_live limit slots.now d }
{
    let s = slot_at(slots, d.index);
    (d.index < limit) & (s.live & (s.generation == d.generation))
}

// Slot i is changed.
fn change<F: FnOnce(Slot) -> Slot>(slots: &mut [Slot; 128], i: u32, f: F)
    requires { F.IsAlwaysCallable f }
    ensures { (s : Slot) × F.post f (at slots.old i) s × (slots.new ≡ put slots.old i s) }
{
    let s = f(slot_at(slots, i));
    set_slot(slots, i, s);
}

// Slot `index` is the last child of `parent` from now on.
pub fn link_last(slots: &mut [Slot; 128], parent: u32, index: u32)
    ensures { slots.new ≡ link_last slots.old parent index }
{
    let last = slot_at(slots, parent).last_child;
    if last == NIL {
        change(
            slots,
            parent,
            |p| Slot {
                first_child: index,
                ..p
            },
        );
    } else {
        change(
            slots,
            last,
            |s| Slot {
                next_sibling: index,
                ..s
            },
        );
        change(
            slots,
            index,
            |s| Slot {
                prev_sibling: last,
                ..s
            },
        );
    }
    change(
        slots,
        parent,
        |p| Slot {
            last_child: index,
            ..p
        },
    );
}

// Slot `index` leaves its parent's children. Its own links stay.
pub fn unlink(slots: &mut [Slot; 128], index: u32)
    ensures { slots.new ≡ links.unlink slots.old index }
{
    let s = slot_at(slots, index);
    let prev = s.prev_sibling;
    let next = s.next_sibling;
    if prev == NIL {
        change(
            slots,
            s.parent,
            |p| Slot {
                first_child: next,
                ..p
            },
        );
    } else {
        change(
            slots,
            prev,
            |b| Slot {
                next_sibling: next,
                ..b
            },
        );
    }
    if next == NIL {
        change(
            slots,
            s.parent,
            |p| Slot {
                last_child: prev,
                ..p
            },
        );
    } else {
        change(
            slots,
            next,
            |a| Slot {
                prev_sibling: prev,
                ..a
            },
        );
    }
}

// The list with the node and all below it behind it, `depth` levels down, in the order of freeing.
// The slots are lent, since each level is a call. A full list ends the walk, so that no links keep it going.
fn list_freed(slots: &[Slot; 128], order: &mut Listed<128>, node: u32, depth: u32)
    ensures { order.new ≡ added_all order.old (back_order depth slots.now node) }
{
    if depth == 0 || 128 <= order.count {
        return;
    }
    order.push(node);
    let mut child = slot_at(slots, node).last_child;
    // As many steps as there are slots, so that links that lead round end the walk.
    // Kept: a walk along links, written out: it stops by its own test, and an iterator's items would have to be proved the chain's.
    for _ in 0..128u32 {
        let Some(s) = slots.get(child as usize) else {
            return
        };
        list_freed(slots, order, child, depth - 1);
        child = s.prev_sibling;
    }
}

// The node and all below it in the order of freeing, as far as 128 go.
pub fn freed_order(slots: &[Slot; 128], node: u32) -> Listed<128>
    ensures { (result.count ≤ 128) × (listed result ≡ walked slots.now node) }
{
    let mut order = Listed::new();
    list_freed(slots, &mut order, node, 128);
    order
}

// The slot freed, with `free` after it in the free chain.
#[tactic(auto, unfolding(crate::specs::Slots::next_generation))]
fn freed_slot(s: Slot, free: u32) -> Slot
    ensures { result ≡ idle (next_generation s.generation) free }
{
    Slot {
        generation: s.generation.wrapping_add(1),
        live: false,
        parent: NIL,
        first_child: NIL,
        last_child: NIL,
        prev_sibling: NIL,
        next_sibling: free,
    }
}

// The slots listed are freed one after another, each put before the free chain, which starts at `free`; the head of the chain then.
pub fn free_listed(slots: &mut [Slot; 128], free: u32, o: &Listed<128>) -> u32
    ensures { (slots.new ≡ freed slots.old free (listed o.now)) × (result ≡ final_or free (listed o.now)) }
{
    let mut head = free;
    for i in o.as_slice() {
        let gone = freed_slot(slot_at(slots, *i), head);
        set_slot(slots, *i, gone);
        head = *i;
    }
    head
}

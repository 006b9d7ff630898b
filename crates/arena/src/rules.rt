// The link rules: whether the slots' links make one tree and one free chain.
ghost use Rattle.std.specs.Prelude.{◌≡◌, ℕ, ◌≤◌, ◌&&◌, [], ◌∷◌, take, zip, nat_le, nat_lt};
ghost use Rattle.arithmetic.specs.Tests.{same, head_or, all};
ghost use Rattle.arena.specs.Slots.{NIL, at, chain, kids_at, order};
ghost use Rattle.arena.specs.Support.Lists.{listed, added_all, once_by, Small, Tallied};
ghost use Rattle.arena.specs.Rules.{node_well, free_well, each_once, root_well, linked};

use crate::Slot;
use crate::links::{NIL, slot_at};
use crate::listed::Listed;

// What a walk along links listed, and whether the links that it went along are right.
// Kept: the list is asked for where the links are wrong, too, so that `well` is no `Result`.
#[derive(Clone, Copy)]
pub struct Walked {
    pub order: Listed<128>,
    pub well: bool,
}

// The list with the children of a node behind it, and whether the links of the node to them are right.
fn list_children(slots: &[Slot; 128], node: u32, order: &mut Listed<128>) -> bool
    ensures { (order.new ≡ added_all order.old (kids_at slots.now node)) × (result ≡ node_well slots.now node) }
{
    let s = slot_at(slots, node);
    let mut child = s.first_child;
    let mut prev = NIL;
    let mut well = true;
    // As many steps as there are slots, so that links that lead round end the walk.
    // Kept: a walk along links, here and in `free_chain`, written out: each looks at the links on its way, and an iterator's items would have to be proved the chain's.
    for _ in 0..128u32 {
        let Some(c) = slots.get(child as usize) else {
            break
        };
        well = well & ((c.parent == node) & (c.prev_sibling == prev));
        order.push(child);
        prev = child;
        child = c.next_sibling;
    }
    well & ((child == NIL) & (s.last_child == prev))
}

// The slots reached from the root, parents before children, and whether the links of each to its children are right. The list is its
// own queue: `at` is the place of the node whose children are passed.
pub fn reach_root(slots: &[Slot; 128]) -> Walked
    ensures { (result.order.count ≤ 128) × Small result.order.items × (listed result.order ≡ order 128 slots.now (0 ∷ [])) × (result.well ≡ all (node_well slots.now) (order 128 slots.now (0 ∷ []))) }
{
    let mut order = Listed::new();
    order.push(0);
    let mut well = true;
    let mut at = 0;
    // Kept: the list grows while it is read, so that no iterator can hold it.
    while at < order.count {
        let node = order.items[at];
        well = well & list_children(slots, node, &mut order);
        at += 1;
    }
    Walked { order, well }
}

// The slots from `free` on by next links, and whether the last has none.
fn free_chain(slots: &[Slot; 128], free: u32) -> Walked
    ensures { (listed result.order ≡ chain 128 slots.now free) × (result.well ≡ (same free (head_or NIL (chain 128 slots.now free)) && free_well slots.now (chain 128 slots.now free))) }
{
    let mut order = Listed::new();
    let mut i = free;
    for _ in 0..128u32 {
        let Some(s) = slots.get(i as usize) else {
            break
        };
        order.push(i);
        i = s.next_sibling;
    }
    Walked {
        order,
        well: i == NIL,
    }
}

// How often each slot is listed.
fn tally(o: &Listed<128>) -> [u32; 128]
    ensures { Tallied result (listed o.now) }
{
    let mut times = [0u32; 128];
    for i in o.as_slice() {
        let k = *i as usize;
        if k < times.len() {
            times[k] += 1;
        }
    }
    times
}

// Whether a slot is in one of two lists once, and in the first just where it is live: how often it is in each.
#[tactic(auto, unfolding(arithmetic::specs::Tests::same))]
fn once_well(s: Slot, reached: u32, free: u32) -> bool
    ensures { result ≡ once_by s reached free }
{
    let total = (reached as u64) + (free as u64);
    (reached == s.live as u32) & (total == 1)
}

// Whether that holds of every slot below the limit. It goes through them all: a loop that cannot stop early is compiled to wide comparisons.
fn all_once(limit: u32, slots: &[Slot; 128], reached: &[u32; 128], free: &[u32; 128]) -> bool
    ensures { result ≡ all (λ x. once_by x.0 x.1.0 x.1.1) (take limit (zip slots.now (zip reached.now free.now))) }
{
    let mut well = true;
    for k in 0..(limit as usize).min(128) {
        well = well & once_well(slots[k], reached[k], free[k]);
    }
    well
}

// Whether all listed are below the limit.
fn all_below(limit: u32, o: &Listed<128>) -> bool
    ensures { result ≡ all (λ (i : ℕ). nat_lt i limit) (listed o.now) }
{
    o.as_slice().iter().all(|i| *i < limit)
}

// Whether each live slot is reached once, each dead one is free once, and nothing else is in either list.
fn each_once(limit: u32, slots: &[Slot; 128], reached: &Listed<128>, free: &Listed<128>) -> bool
    requires { limit ≤ 128 }
    ensures { result ≡ each_once limit slots.now (listed reached.now) (listed free.now) }
{
    let once = all_once(limit, slots, &tally(reached), &tally(free));
    once & (all_below(limit, reached) & all_below(limit, free))
}

// Whether slot 0 is live and alone at the top.
#[tactic(auto, unfolding(crate::specs::Slots::at, arithmetic::specs::Tests::same))]
fn root_well(slots: &[Slot; 128]) -> bool
    ensures { result ≡ root_well slots.now }
{
    let s = slots[0];
    s.live & ((s.parent == NIL) & ((s.prev_sibling == NIL) & (s.next_sibling == NIL)))
}

// Whether the links of a tree of this limit keep all link rules; one above 128 keeps none.
// Not built into its caller, for what `tree::rules::broken` says.
#[inline(never)]
pub fn links_well(limit: u32, slots: &[Slot; 128], free: u32, live: u32) -> bool
    ensures { result ≡ (nat_le limit 128 && linked limit slots.now free live) }
{
    if 128 < limit {
        return false;
    }
    let reached = reach_root(slots);
    let chain = free_chain(slots, free);
    let root = root_well(slots);
    let each = each_once(limit, slots, &reached.order, &chain.order);
    root & (each & (reached.well & (chain.well & (live as usize == reached.order.count))))
}

// Input: the node under a pixel, from the root down to the last child whose box holds it, and the node under the pointer.
ghost use Rattle.std.specs.Prelude.{◌≡◌, ◌<◌, None};
ghost use Rattle.arena.specs.Slots as links;
ghost use Rattle.boxes.specs.Layout as laid;
ghost use Rattle.boxes.specs.Hit as hits;
ghost use Rattle.boxes.specs.Pointers.{under_pointer};

use crate::{LayoutSlot, Pixel, layout};
use arena::Slot;
use arena::links::id_at;
use field::NodeId;

// Whether the slot's box holds the pixel.
fn contains(l: LayoutSlot, pixel: Pixel) -> bool
    ensures { result ≡ laid.holds pixel.x pixel.y l.rect }
{
    layout::holds(pixel.x, pixel.y, l.rect)
}

// The last of the children of slot `at` whose box holds the pixel, or `at`.
fn last_holding(slots: &[Slot; 128], layout: &[LayoutSlot; 128], pixel: Pixel, at: u32) -> u32
    requires { at < 128 }
    ensures { (result < 128) × (result ≡ hits.last_of (hits.holds_at layout.now pixel) at (links.kids_at slots.now at)) }
{
    let mut found = at;
    // Kept: a walk along sibling links, written out: it stops by its own test, and an iterator's items would have to be proved the chain's.
    let mut child = slots[at as usize].first_child;
    for _ in 0..128u32 {
        if 128 <= child {
            break;
        }
        let k = child as usize;
        if contains(layout[k], pixel) {
            found = child;
        }
        child = slots[k].next_sibling;
    }
    found
}

// From the root down, at most 128 times: to the last child whose box holds the pixel, until none does.
fn descend(slots: &[Slot; 128], layout: &[LayoutSlot; 128], pixel: Pixel) -> u32
    ensures { result ≡ hits.descend (hits.holds_at layout.now pixel) 128 slots.now 0 }
{
    let mut at: u32 = 0;
    for _ in 0..128u32 {
        let found = last_holding(slots, layout, pixel, at);
        if found == at {
            return at;
        }
        at = found;
    }
    at
}

// The node under a pixel: none where the root's box does not hold it.
// Kept: `slots` and `layout` apart: a struct of both would be built of two fields of a tree at each call, and its contract name both all the same.
pub fn hit_test(slots: &[Slot; 128], layout: &[LayoutSlot; 128], pixel: Pixel) -> Option<NodeId>
    ensures { result ≡ hits.hit_at slots.now layout.now pixel }
{
    let root = layout[0];
    if contains(root, pixel) {
        let at = descend(slots, layout, pixel);
        let id = id_at(slots, at);
        return Some(id);
    }
    None
}

// The node under the pointer: none where the pointer is nowhere.
pub fn under_pointer(
    slots: &[Slot; 128],
    layout: &[LayoutSlot; 128],
    pointer: Option<Pixel>,
) -> Option<NodeId>
    ensures { result ≡ under_pointer None (λ pixel. hits.hit_at slots.now layout.now pixel) pointer }
{
    match pointer {
        None => None,
        Some(pixel) => hit_test(slots, layout, pixel),
    }
}

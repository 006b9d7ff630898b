// Nodes come and go: what an insertion or a removal does to one slot, and the box of a slot.
ghost use Rattle.std.specs.Prelude.{◌≡◌, ◌-◌};
ghost use Rattle.arena.specs.Slots.{used, NIL};
ghost use Rattle.boxes.specs.States.{reset_states};
ghost use Rattle.boxes.specs.Styles.{layout_at};
ghost use Rattle.arena.specs.Support.Lists.{listed};

use crate::{LayoutSlot, Rect, StateSlot, start};
use arena::Slot;
use arena::links::NIL;
use arena::listed::Listed;

// A slot taken by a child of `parent` that has no neighbours yet.
pub fn taken(s: Slot, parent: u32) -> Slot
    ensures { result ≡ used s.generation parent NIL NIL NIL NIL }
{
    Slot {
        generation: s.generation,
        live: true,
        parent,
        first_child: NIL,
        last_child: NIL,
        prev_sibling: NIL,
        next_sibling: NIL,
    }
}

// The listed slots' states are as new from now on.
pub fn reset_states(states: &mut [StateSlot; 128], o: &Listed<128>)
    ensures { states.new ≡ reset_states states.old (listed o.now) }
{
    let fresh = start::fresh_state();
    for i in o.as_slice() {
        if *i < 128 {
            states[*i as usize] = fresh;
        }
    }
}

// The box of slot i.
#[tactic(auto, unfolding(crate::specs::Styles::layout_at))]
pub fn rect_at(layout: &[LayoutSlot; 128], i: u32) -> Rect
    ensures { result ≡ (layout_at layout.now i).rect }
{
    match layout.get(i as usize) {
        Some(l) => l.rect,
        None => Rect::default(),
    }
}

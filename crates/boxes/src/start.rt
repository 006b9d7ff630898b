// What is fresh: a new tree's slots and pointer, and a new node's style, layout slot and state slot.
ghost use Rattle.std.specs.Prelude.{◌≡◌, replicate};
ghost use Rattle.arena.specs.Slots.{NIL, new_slot, new_slots};
ghost use Rattle.boxes.specs.Pointers.{first_pointer};
ghost use Rattle.boxes.specs.Styles.{fresh_style, fresh_layout, fresh_state};

use crate::wearing::bare;
use crate::{LayoutSlot, Pixel, Rect, Size, StartKind, StateSlot, Style};
use arena::Slot;
use arena::links::NIL;

// A slot of generation 1 without neighbours, but for the next.
fn first_slot(live: bool, next: u32) -> Slot
    ensures { result ≡ record { generation = 1; live = live; parent = NIL; first_child = NIL; last_child = NIL; prev_sibling = NIL; next_sibling = next } }
{
    Slot {
        generation: 1,
        live,
        parent: NIL,
        first_child: NIL,
        last_child: NIL,
        prev_sibling: NIL,
        next_sibling: next,
    }
}

// Slot `i` of a fresh tree: the root, a slot of the free chain, or past the limit.
fn new_slot(n: u32, i: u32) -> Slot
    ensures { result ≡ new_slot n i }
{
    if i == 0 {
        return first_slot(true, NIL);
    }
    if n <= i {
        return Slot::default();
    }
    if n - 1 <= i {
        return first_slot(false, NIL);
    }
    first_slot(false, i + 1)
}

pub fn new_slots(n: u32) -> [Slot; 128]
    ensures { result ≡ new_slots n 0 128 }
{
    let mut out = [Slot::default(); 128];
    for (i, s) in out.iter_mut().enumerate() {
        *s = new_slot(n, i as u32);
    }
    out
}

// A new node's style.
pub fn fresh_style() -> Style
    ensures { result ≡ fresh_style }
{
    Style::sized(Size::Auto, Size::Auto)
}

// A new node's layout slot: an empty box at zero.
pub fn fresh_layout() -> LayoutSlot
    ensures { result ≡ fresh_layout }
{
    LayoutSlot {
        style: fresh_style(),
        rect: Rect::default(),
        wanted_width: 0,
        wanted_height: 0,
    }
}

// A new node's state slot: no patch, no bits.
pub fn fresh_state() -> StateSlot
    ensures { result ≡ fresh_state }
{
    bare(fresh_style())
}

// The arrays of a fresh tree.
pub fn fresh_layouts() -> [LayoutSlot; 128]
    ensures { result ≡ replicate 128 fresh_layout }
{
    [fresh_layout(); 128]
}

// Not built into its caller (a hint, which changes no proof): around its 128 copies a tree would be put together from parts, each copied.
#[inline(never)]
pub fn fresh_states() -> [StateSlot; 128]
    ensures { result ≡ replicate 128 fresh_state }
{
    [fresh_state(); 128]
}

// Where the pointer of a fresh tree is.
pub fn first_pointer(kind: StartKind) -> Option<Pixel>
    ensures { result ≡ first_pointer kind }
{
    match kind {
        StartKind::New => None,
        StartKind::AtOrigin => Some(Pixel { x: 0, y: 0 }),
    }
}

// Trees that break nothing, grown by calls.
use desk::UiEvent;
use field::NodeId;
use text::refusal::Refusal;
use tree::answers::Reply;
use tree::{Size, StatePatch, Style, Ui, UiLimits, Viewport};

// Which tree the damage is done to.
#[derive(Clone, Copy)]
pub(crate) enum Base {
    // The root alone, of limit 1.
    Alone,
    // The root alone, of limit 128.
    Wide,
    // Seven live nodes of twelve, with fields, a pool, a worn patch, a focus and an output.
    Grown,
}

impl Base {
    pub(crate) fn tree(self) -> Ui {
        match self {
            Base::Alone => fresh(1),
            Base::Wide => fresh(128),
            Base::Grown => grown(),
        }
    }

    // A node that lives in the tree, damaged or not.
    pub(crate) fn living(self) -> NodeId {
        match self {
            Base::Alone | Base::Wide => Ui::root(),
            Base::Grown => id(2),
        }
    }
}

// The node that slot i got first.
// Kept: as in `bench`; the two programs share no crate of their own.
pub(crate) fn id(i: u32) -> NodeId {
    NodeId {
        index: i,
        generation: 1,
    }
}

// A style of a set width and height.
pub(crate) fn plain(width: i64, height: i64) -> Style {
    Style::sized(Size::Px(width), Size::Px(height))
}

// 64 patches, all alike.
pub(crate) fn patches() -> [StatePatch; 64] {
    [StatePatch {
        style: plain(1310720, 655360),
        touches_layout: true,
    }; 64]
}

// A table that wears patch 1 on the node that has hover and focus.
fn table() -> [u16; 16] {
    let mut t = [65535u16; 16];
    t[5] = 1;
    t
}

pub(crate) fn view() -> Viewport {
    Viewport {
        width: 20971520,
        height: 13107200,
    }
}

fn fresh(limit: u32) -> Ui {
    let made = Ui::new(UiLimits { nodes: limit });
    made.tree
}

// The next tree takes the place of the last one; what the call answered.
// Kept: as in `bench`; the two programs share no crate of their own, and a method of `Reply` would be theirs alone.
pub(crate) fn kept<T: Copy>(r: Reply<T>, u: &mut Ui) -> Result<T, Refusal> {
    *u = r.tree;
    r.answer
}

// A call. It is not built into another function, so that no frame has room for what two calls hold.
#[inline(never)]
fn change<T: Copy, F: FnOnce(&mut Ui) -> Result<T, Refusal>>(u: &mut Ui, call: F)
    requires { F.IsAlwaysCallable call }
{
    let _ = call(u);
}

// Slots 1 to 8 are taken: the root's children are 1, 5, 7 and 8, those of 1 are 2, 3 and 4, that of 5 is 6. Slots 7 and 8 are freed
// again, so that the free chain is not in order: 8, 7, 9, 10, 11.
fn inserted(u: &mut Ui) {
    for parent in [0u32, 1, 1, 1, 0, 5, 0, 0] {
        change(u, |t| kept(t.insert(id(parent)), t));
    }
    change(u, |t| kept(t.remove(id(7)), t));
    change(u, |t| kept(t.remove(id(8)), t));
}

// Nodes 2 and 6 get fields, and 2 a table and a box.
fn dressed(u: &mut Ui) {
    change(u, |t| kept(t.make_field(id(2)), t));
    change(u, |t| kept(t.make_field(id(6)), t));
    change(u, |t| kept(t.set_patch_pool(patches(), 2), t));
    change(u, |t| kept(t.set_state_table(id(2), table()), t));
    change(u, |t| kept(t.set_style(id(2), plain(655360, 655360)), t));
    change(u, |t| kept(t.solve(view()), t));
}

// Node 2 is clicked, and 7 and U+00E9 are typed, three bytes.
fn handled(u: &mut Ui) {
    let events = [
        UiEvent::PointerMoved { x: 5, y: 5 },
        UiEvent::PointerPressed,
        UiEvent::PointerReleased,
        UiEvent::TextEntered { ch: 55 },
        UiEvent::TextEntered { ch: 233 },
    ];
    for event in events {
        change(u, |t| kept(desk::handle(*t, event), t));
    }
}

fn grown() -> Ui {
    let mut u = fresh(12);
    inserted(&mut u);
    dressed(&mut u);
    handled(&mut u);
    u
}

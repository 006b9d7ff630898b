// The shapes: how many nodes a tree has, who is whose child, what each looks like, and the two points that are pressed.
use desk::UiEvent;
use field::NodeId;
use tree::{Align, Direction, Edges, Size, StatePatch, Style};

#[derive(Clone, Copy)]
pub(crate) enum Shape {
    Root,
    // Three panels below the root, with sixteen leaves, eight of them fields.
    Form,
    // All nodes are the root's children.
    Flat,
    // Each node is the child of the one before.
    Chain,
    // Up to eight children a node, with growth, patches and tables.
    Eights,
    // A panel of sixty nodes, and nineteen nodes beside it.
    Panel,
}

impl From<u32> for Shape {
    // The Rust driver numbers them the same way; any other number is the root alone.
    fn from(number: u32) -> Shape {
        match number {
            1 => Shape::Form,
            2 => Shape::Flat,
            3 => Shape::Chain,
            4 => Shape::Eights,
            5 => Shape::Panel,
            _ => Shape::Root,
        }
    }
}

// The node that slot k got first.
// Kept: as in `broken`; the two programs share no crate of their own.
pub(crate) fn id(k: u32) -> NodeId {
    NodeId {
        index: k,
        generation: 1,
    }
}

fn form_parent(k: u32) -> u32 {
    if k < 4 {
        return 0;
    }
    (k - 4) / 6 + 1
}

fn panel_parent(k: u32) -> u32 {
    if 60 < k {
        return 0;
    }
    k / 2
}

impl Shape {
    // How many nodes.
    pub(crate) fn count(self) -> u32 {
        match self {
            Shape::Root => 1,
            Shape::Form => 20,
            Shape::Flat | Shape::Chain | Shape::Eights => 128,
            Shape::Panel => 80,
        }
    }

    // The parent of the node that comes kth.
    pub(crate) fn parent(self, k: u32) -> u32 {
        match self {
            Shape::Root | Shape::Flat => 0,
            Shape::Form => form_parent(k),
            Shape::Chain => k.saturating_sub(1),
            Shape::Eights => k.saturating_sub(1) / 8,
            Shape::Panel => panel_parent(k),
        }
    }

    // The leaf that has hover and focus once the tree is built.
    pub(crate) fn focus(self) -> NodeId {
        match self {
            Shape::Root => id(0),
            Shape::Form => id(11),
            Shape::Flat => id(120),
            Shape::Chain | Shape::Eights => id(127),
            Shape::Panel => id(60),
        }
    }

    // A move of the pointer to the leaf that is pressed first, or away from it.
    pub(crate) fn moved(self, there: bool) -> UiEvent {
        if !there {
            return UiEvent::PointerMoved { x: 15, y: 40 };
        }
        match self {
            Shape::Root => UiEvent::PointerMoved { x: 640, y: 360 },
            Shape::Form => UiEvent::PointerMoved { x: 130, y: 150 },
            Shape::Flat => UiEvent::PointerMoved { x: 1200, y: 10 },
            Shape::Chain => UiEvent::PointerMoved { x: 150, y: 150 },
            Shape::Eights => UiEvent::PointerMoved { x: 10, y: 333 },
            Shape::Panel => UiEvent::PointerMoved { x: 9, y: 126 },
        }
    }

    // The base style of a node.
    pub(crate) fn style(self, k: u32) -> Style {
        match self {
            Shape::Root => around(Direction::Column, 8, 4, 0),
            Shape::Form => form_style(k),
            Shape::Flat => flat_style(k),
            Shape::Chain => chain_style(k),
            Shape::Eights => eights_style(k),
            Shape::Panel => panel_style(k),
        }
    }
}

fn px(n: u32) -> i64 {
    i64::from(n) * 65536
}

fn edges(n: u32) -> Edges {
    Edges {
        left: px(n),
        right: px(n),
        top: px(n),
        bottom: px(n),
    }
}

// A box around its children.
fn around(direction: Direction, padding: u32, gap: u32, grow: u32) -> Style {
    Style {
        direction,
        width: Size::Auto,
        height: Size::Auto,
        margin: edges(0),
        padding: edges(padding),
        gap: px(gap),
        grow,
        justify: Align::Start,
        align_cross: Align::Start,
        background: [0u8; 4],
    }
}

// A box of a set size.
fn leaf(width: u32, height: u32, grow: u32) -> Style {
    let mut style = around(Direction::Row, 2, 0, grow);
    style.width = Size::Px(px(width));
    style.height = Size::Px(px(height));
    style
}

fn form_panel() -> Style {
    let mut style = around(Direction::Row, 10, 10, 0);
    style.width = Size::Px(px(1280));
    style.height = Size::Px(px(100));
    style.align_cross = Align::Center;
    style
}

// Rows and columns in turn.
fn turned(k: u32) -> Direction {
    if k % 2 == 1 {
        return Direction::Column;
    }
    Direction::Row
}

fn form_style(k: u32) -> Style {
    if k == 0 {
        return around(Direction::Column, 0, 0, 0);
    }
    if k < 4 {
        return form_panel();
    }
    if k % 5 == 4 {
        return leaf(100, 24, k % 3);
    }
    leaf(100, 24, 0)
}

fn flat_style(k: u32) -> Style {
    if k == 0 {
        return around(Direction::Row, 4, 1, 0);
    }
    leaf(6 + k % 4, 20 + k % 30, k % 3)
}

fn chain_style(k: u32) -> Style {
    if k == 127 {
        return leaf(100, 50, 0);
    }
    around(turned(k), 1, 0, k % 2)
}

fn eights_style(k: u32) -> Style {
    if k < 16 {
        return around(turned(k), 2, 1, k % 5);
    }
    leaf(8 + k % 7, 6 + k % 5, k % 5)
}

fn panel_style(k: u32) -> Style {
    if k < 31 {
        return around(turned(k), 1, 1, k % 2);
    }
    leaf(8, 8, k % 3)
}

// The style that a node gets instead, in turn with its own.
pub(crate) fn other_style() -> Style {
    leaf(40, 30, 2)
}

fn patch(p: u32) -> StatePatch {
    StatePatch {
        style: leaf(10 + p % 8, 12, p % 3),
        touches_layout: p % 2 == 0,
    }
}

// The pool: eight patches, of which every second one touches layout. The others are not in it.
pub(crate) fn patches() -> [StatePatch; 64] {
    let mut all = [patch(0); 64];
    for (p, place) in (0u32..8).zip(&mut all) {
        *place = patch(p);
    }
    all
}

// How many of the patches are in the pool.
pub(crate) const POOL: u32 = 8;

// A table with another patch for each state but the plain one.
pub(crate) fn table(k: u32) -> [u16; 16] {
    let mut t = [65535u16; 16];
    for (bits, entry) in (1u32..8).zip(&mut t[1..]) {
        *entry = ((k % 8 + bits % 8) % 8) as u16;
    }
    t
}

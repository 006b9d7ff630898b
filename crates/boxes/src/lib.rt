// What gives nodes their boxes: styles, states and patches, the pass, and the node under a pixel; and events. All over arrays that are lent:
// no function here takes the whole tree.
#![tactic(auto)]

pub mod input;
pub mod layout;
pub mod nodes;
pub mod start;
pub mod state;
pub mod wearing;

ghost use Rattle.std.specs.Prelude.{◌≡◌};
ghost use Rattle.boxes.specs.Styles.{sized_style};

use field::EditOp;

// Which way a node lays out its children.
#[derive(Clone, Copy, Debug, PartialEq, Eq)]
pub enum Direction {
    Row,
    Column,
}

// A width or a height: what the content needs, or a set raw number.
// Kept: document 01 names both cases, "automatic or a set number", and callers write them; `None` would not say which one it is.
#[derive(Clone, Copy, Debug, PartialEq, Eq)]
pub enum Size {
    Auto,
    Px(i64),
}

// Where children sit along an axis that has space left.
#[derive(Clone, Copy, Debug, PartialEq, Eq)]
pub enum Align {
    Start,
    Center,
    End,
}

// Space on each side of a box, raw.
#[derive(Clone, Copy, Debug, Default, PartialEq, Eq)]
pub struct Edges {
    pub left: i64,
    pub right: i64,
    pub top: i64,
    pub bottom: i64,
}

// All that layout knows of a node, and its background. In this order the fields leave no gap between them.
#[derive(Clone, Copy, Debug, PartialEq, Eq)]
pub struct Style {
    pub width: Size,
    pub height: Size,
    pub margin: Edges,
    pub padding: Edges,
    pub gap: i64,
    pub grow: u32,
    pub direction: Direction,
    pub justify: Align,
    pub align_cross: Align,
    pub background: [u8; 4],
}

impl Style {
    // A new node's style, but for its width and height.
    pub fn sized(width: Size, height: Size) -> Style
        ensures { result ≡ sized_style width height }
    {
        Style {
            direction: Direction::Row,
            width,
            height,
            margin: Edges::default(),
            padding: Edges::default(),
            gap: 0,
            grow: 0,
            justify: Align::Start,
            align_cross: Align::Start,
            background: [0; 4],
        }
    }
}

// A box, raw.
#[derive(Clone, Copy, Debug, Default, PartialEq, Eq)]
pub struct Rect {
    pub x: i64,
    pub y: i64,
    pub width: i64,
    pub height: i64,
}

// A slot's worn style, its box, and the size it wanted in the last pass.
#[derive(Clone, Copy, Debug, PartialEq, Eq)]
pub struct LayoutSlot {
    pub style: Style,
    pub rect: Rect,
    pub wanted_width: i64,
    pub wanted_height: i64,
}

// A slot's patch numbers by state bits, the patch worn and the bits it is worn for, which the check reads, and behind them its base style.
#[derive(Clone, Copy, Debug, PartialEq, Eq)]
pub struct StateSlot {
    pub table: [u16; 16],
    pub applied: u16,
    pub bits: u8,
    pub base: Style,
}

// A style to be worn, and whether wearing it moves boxes.
#[derive(Clone, Copy, Debug, PartialEq, Eq)]
pub struct StatePatch {
    pub style: Style,
    pub touches_layout: bool,
}

// A point in pixels.
#[derive(Clone, Copy, Debug, PartialEq, Eq)]
pub struct Pixel {
    pub x: i32,
    pub y: i32,
}

// The two starts: `Ui::new`, where the pointer is nowhere, and `Ui::at_origin`, where it is at (0, 0).
#[derive(Clone, Copy, Debug, PartialEq, Eq)]
pub enum StartKind {
    New,
    AtOrigin,
}

// A viewport, raw.
#[derive(Clone, Copy, Debug, PartialEq, Eq)]
pub struct Viewport {
    pub width: i64,
    pub height: i64,
}

// An event: the pointer at a pixel, a press and a release of the one button, a typed character, an edit.
#[derive(Clone, Copy, Debug, PartialEq, Eq)]
pub enum UiEvent {
    PointerMoved { x: i32, y: i32 },
    PointerPressed,
    PointerReleased,
    TextEntered { ch: u32 },
    Edit { op: EditOp },
}

// What a key asks of the field in focus: a character, or an edit.
// Kept: document 01 asks for an enum of two cases in place of the source's closure.
#[derive(Clone, Copy, Debug, PartialEq, Eq)]
pub enum Key {
    Char(u32),
    Op(EditOp),
}

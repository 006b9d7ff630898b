// A program over the library: a desk with one field, a draught typed into it, its centimetres, and its confirmation.
#![tactic(auto)]

use desk::UiEvent;
use field::NodeId;
use std::io;
use text::refusal::Refusal;
use tree::{Size, Style, Ui, UiLimits, Viewport};

fn main(rt: HostRuntime) -> io::Result<()> {
    let made = Ui::new(UiLimits { nodes: 8 });
    let inserted = made.tree.insert(Ui::root());
    let draught = match inserted.answer {
        Ok(node) => node,
        Err(word) => return show(&rt, Err(word)),
    };
    let mut u = with_field(inserted.tree, draught);
    show(&rt, desk::metres(u, draught))?;
    u = clicked(u, 10, 10);
    for key in b"4.25" {
        u = typed(u, *key);
    }
    show(&rt, desk::metres(u, draught))?;
    confirmed(&rt, u, draught)
}

// A field for the node, a size, and a layout pass, without which no press hits it. Each call gives a verdict and the next tree; a refused
// one gives back the tree that it got.
fn with_field(u: Ui, node: NodeId) -> Ui {
    let made = u.make_field(node);
    let styled = made.tree.set_style(node, sized(100, 20));
    let solved = styled.tree.solve(Viewport {
        width: pixels(320),
        height: pixels(200),
    });
    solved.tree
}

// A press and a release on one node give it the focus.
fn clicked(u: Ui, x: i32, y: i32) -> Ui {
    let moved = desk::handle(u, UiEvent::PointerMoved { x, y });
    let down = desk::handle(moved.tree, UiEvent::PointerPressed);
    let up = desk::handle(down.tree, UiEvent::PointerReleased);
    up.tree
}

// A key goes to the field of the node in focus.
fn typed(u: Ui, key: u8) -> Ui {
    let next = desk::handle(u, UiEvent::TextEntered { ch: u32::from(key) });
    next.tree
}

// What a ramp is set by: the number is given once the draught is confirmed, and no longer when the next ship has come.
fn confirmed(rt: &impl Print, u: Ui, draught: NodeId) -> io::Result<()> {
    show(rt, desk::confirmed_metres(u, draught))?;
    let sure = desk::confirm(u, draught);
    show(rt, desk::confirmed_metres(sure.tree, draught))?;
    let next = desk::next_ship(sure.tree);
    show(rt, desk::confirmed_metres(next.tree, draught))
}

fn show(rt: &impl Print, m: Result<u32, Refusal>) -> io::Result<()> {
    match m {
        Ok(n) => println!(rt; "centimetres: {n}"),
        Err(word) => println!(rt; "refused by number {}", word.number()),
    }
}

fn pixels(n: i32) -> i64 {
    arithmetic::scalar::from_int(n)
}

// A box of so many pixels; all else as a new node has it.
fn sized(width: i32, height: i32) -> Style {
    Style::sized(Size::Px(pixels(width)), Size::Px(pixels(height)))
}

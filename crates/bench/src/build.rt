// Trees grown by calls, and what some kinds of call need first.
use crate::kinds::Kind;
use crate::runs::kept;
use crate::shapes;
use crate::shapes::{Shape, id};
use desk::UiEvent;
use tree::{Ui, UiLimits, Viewport};

// The viewport, and one of another height.
pub(crate) fn view(usual: bool) -> Viewport {
    Viewport {
        width: 83886080,
        height: if usual { 47185920 } else { 52428800 },
    }
}

fn handle(u: &mut Ui, event: UiEvent) {
    let _ = kept(desk::handle(*u, event), u);
}

fn grown(shape: Shape) -> Ui {
    let made = Ui::new(UiLimits { nodes: 128 });
    let mut u = made.tree;
    for k in 1..shape.count() {
        let _ = kept(u.insert(id(shape.parent(k))), &mut u);
    }
    u
}

fn pool(u: &mut Ui) {
    let _ = kept(u.set_patch_pool(shapes::patches(), shapes::POOL), u);
}

fn solve(u: &mut Ui) {
    let _ = kept(u.solve(view(true)), u);
}

fn click(u: &mut Ui) {
    handle(u, UiEvent::PointerPressed);
    handle(u, UiEvent::PointerReleased);
}

// Eight fields, for nodes 4 to 11.
fn make_fields(u: &mut Ui) {
    for k in 4..12 {
        let _ = kept(u.make_field(id(k)), u);
    }
}

// A draught typed into the field in focus.
fn draught(u: &mut Ui, digit: u32) {
    for ch in [49 + digit % 9, 46, 53] {
        handle(u, UiEvent::TextEntered { ch });
    }
}

// Where the form's fields stand, six in the first panel and two in the second.
const FIELDS: [(i32, i32); 8] = [
    (20, 50),
    (130, 50),
    (240, 50),
    (350, 50),
    (460, 50),
    (570, 50),
    (20, 150),
    (130, 150),
];

// The form's fields, each clicked and typed into.
fn fill(u: &mut Ui) {
    make_fields(u);
    for (f, (x, y)) in (0u32..8).zip(FIELDS) {
        handle(u, UiEvent::PointerMoved { x, y });
        click(u);
        draught(u, f);
    }
}

// The tree of a shape: laid out, with the pointer over its leaf, which has been clicked.
pub(crate) fn tree(shape: Shape) -> Ui {
    let mut u = grown(shape);
    for k in 0..shape.count() {
        let _ = kept(u.set_style(id(k), shape.style(k)), &mut u);
    }
    if let Shape::Eights = shape {
        pool(&mut u);
        for k in 0..128 {
            let _ = kept(u.set_state_table(id(k), shapes::table(k)), &mut u);
        }
    }
    solve(&mut u);
    if let Shape::Form = shape {
        fill(&mut u);
    }
    handle(&mut u, shape.moved(true));
    click(&mut u);
    solve(&mut u);
    u
}

// The tree made ready for a kind of call.
pub(crate) fn ready(u: &mut Ui, shape: Shape, kind: Kind) {
    match (kind, shape) {
        // Room for one more leaf.
        (Kind::InsertRemove, Shape::Flat | Shape::Chain | Shape::Eights) => {
            let _ = kept(u.remove(id(127)), u);
        }
        (Kind::SetStateTable, Shape::Eights) => {}
        (Kind::SetStateTable, _) => pool(u),
        (Kind::NoField, _) => make_fields(u),
        // No output waits; the form's clicks left nine.
        (Kind::Output, _) => {
            for _ in 0..9 {
                let _ = kept(desk::next_output(*u), u);
            }
        }
        // A field for the leaf in focus; the form's has one, with a text.
        (
            Kind::MakeField | Kind::FieldText | Kind::FieldCursor | Kind::Metres | Kind::Key,
            Shape::Root | Shape::Flat | Shape::Chain | Shape::Eights | Shape::Panel,
        ) => {
            let _ = kept(u.make_field(shape.focus()), u);
            draught(u, 6);
        }
        _ => {}
    }
}

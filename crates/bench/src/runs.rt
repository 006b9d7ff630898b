// The kinds of call that give the next tree.
use crate::build::view;
use crate::kinds::Kind;
use crate::mix::{mix, neighbour, node, refused, verdict};
use crate::shapes;
use crate::shapes::{Shape, id};
use desk::UiEvent;
use field::{EditOp, NodeId};
use text::refusal::Refusal;
use tree::answers::Reply;
use tree::{Ui, UiLimits};

// The next tree takes the place of the last one; what the call answered.
// Kept: as in `broken`; the two programs share no crate of their own.
pub(crate) fn kept<T: Copy>(r: Reply<T>, u: &mut Ui) -> Result<T, Refusal> {
    *u = r.tree;
    r.answer
}

// n turns, each with its number; their answers mixed.
fn turns<F: FnMut(&mut Ui, u32) -> Result<(), Refusal>>(
    u: &mut Ui,
    n: u32,
    acc: u64,
    mut turn: F,
) -> u64
    requires { F.IsAlwaysCallable turn }
{
    let mut all = acc;
    for i in 0..n {
        all = mix(all, verdict(turn(u, i)));
    }
    all
}

fn new(n: u32, acc: u64) -> u64 {
    (0..n).fold(acc, |acc, i| {
        let c = Ui::new(UiLimits { nodes: 127 + i % 2 });
        mix(acc, u64::from(c.tree.limits.nodes))
    })
}

// A leaf inserted. Not built into its caller, which would keep the reply's tree for the removal and copy it once more.
#[inline(never)]
fn inserted(u: &mut Ui, parent: NodeId) -> Result<NodeId, Refusal> {
    kept(u.insert(parent), u)
}

// A leaf inserted and removed: two calls a turn.
fn insert_remove(u: &mut Ui, shape: Shape, n: u32, acc: u64) -> u64 {
    let parent = id(shape.parent(shape.count().min(127)));
    let mut all = acc;
    for _ in 0..n {
        let given = inserted(u, parent);
        all = mix(all, given.map_or_else(refused, node));
        if let Ok(d) = given {
            all = mix(all, verdict(kept(u.remove(d), u)));
        }
    }
    all
}

// The panel removed, from the same tree each time.
fn remove_panel(u: &Ui, n: u32, acc: u64) -> u64 {
    (0..n).fold(acc, |acc, _| {
        let c = u.remove(id(1));
        mix(mix(acc, verdict(c.answer)), u64::from(c.tree.live))
    })
}

fn set_style(u: &mut Ui, shape: Shape, n: u32, acc: u64) -> u64 {
    let d = shape.focus();
    let styles = [shapes::other_style(), shape.style(d.index)];
    let turn = |t: &mut Ui, i: u32| kept(t.set_style(d, styles[i as usize % 2]), t);
    turns(u, n, acc, turn)
}

fn set_state_table(u: &mut Ui, shape: Shape, n: u32, acc: u64) -> u64 {
    let d = shape.focus();
    let tables = [shapes::table(d.index % 8 + 1), shapes::table(d.index)];
    let turn = |t: &mut Ui, i: u32| kept(t.set_state_table(d, tables[i as usize % 2]), t);
    turns(u, n, acc, turn)
}

fn set_patch_pool(u: &mut Ui, n: u32, acc: u64) -> u64 {
    let patches = shapes::patches();
    let turn = |t: &mut Ui, i: u32| kept(t.set_patch_pool(patches, 8 - i % 2), t);
    turns(u, n, acc, turn)
}

fn press_release(u: &mut Ui, n: u32, acc: u64) -> u64 {
    let buttons = [UiEvent::PointerPressed, UiEvent::PointerReleased];
    let turn = |t: &mut Ui, i: u32| kept(desk::handle(*t, buttons[i as usize % 2]), t);
    turns(u, n, acc, turn)
}

// A character and a backspace, in turn.
fn key(u: &mut Ui, n: u32, acc: u64) -> u64 {
    let keys = [
        UiEvent::TextEntered { ch: 55 },
        UiEvent::Edit {
            op: EditOp::Backspace,
        },
    ];
    let turn = |t: &mut Ui, i: u32| kept(desk::handle(*t, keys[i as usize % 2]), t);
    turns(u, n, acc, turn)
}

// A press, a release and the output taken: three calls a turn.
fn output(u: &mut Ui, n: u32, acc: u64) -> u64 {
    let mut all = acc;
    for _ in 0..n {
        let _ = kept(desk::handle(*u, UiEvent::PointerPressed), u);
        let _ = kept(desk::handle(*u, UiEvent::PointerReleased), u);
        let oldest = kept(desk::next_output(*u), u);
        all = mix(all, oldest.map_or_else(refused, neighbour));
    }
    all
}

// The tree, copied. Not built into its caller, which would see that the copy is the tree.
#[inline(never)]
fn copied(u: &Ui) -> Ui {
    *u
}

// The tree copied out and back, as a call by value copies it: two copies a turn.
fn copies(u: &mut Ui, n: u32, acc: u64) -> u64 {
    let mut all = acc;
    for _ in 0..n {
        *u = copied(u);
        all = mix(all, u64::from(u.live));
    }
    all
}

// n calls of a kind; a kind that is none of these makes none.
pub(crate) fn run(u: &mut Ui, shape: Shape, kind: Kind, n: u32, acc: u64) -> u64 {
    match kind {
        Kind::New => new(n, acc),
        Kind::InsertRemove => insert_remove(u, shape, n, acc),
        Kind::RemovePanel => remove_panel(u, n, acc),
        Kind::SetStyle => set_style(u, shape, n, acc),
        Kind::SetStateTable => set_state_table(u, shape, n, acc),
        Kind::SetPatchPool => set_patch_pool(u, n, acc),
        // For a node that has a field, or one that is refused it.
        Kind::MakeField => turns(u, n, acc, |t, _| kept(t.make_field(shape.focus()), t)),
        Kind::NoField => turns(u, n, acc, |t, _| kept(t.make_field(id(12)), t)),
        // With nothing changed since the last pass, or with two viewports in turn, so that each call is a pass.
        Kind::CleanSolve => turns(u, n, acc, |t, _| kept(t.solve(view(true)), t)),
        Kind::FullPass => turns(u, n, acc, |t, i| kept(t.solve(view(i % 2 == 1)), t)),
        // Away from the leaf in focus and back.
        Kind::PointerMoved => turns(
            u,
            n,
            acc,
            |t, i| kept(desk::handle(*t, shape.moved(i % 2 == 1)), t),
        ),
        Kind::PressRelease => press_release(u, n, acc),
        Kind::Key => key(u, n, acc),
        Kind::Output => output(u, n, acc),
        Kind::Copies => copies(u, n, acc),
        _ => acc,
    }
}

// What a call of the tree or the desk does, and what it writes. A tree is 57 KB, so that few are held at once.
use crate::calls::{Change, Reading};
use crate::digest;
use crate::shown::{Marked, Node, Place, Sum, Typed};
use crate::waiting::Patches;
use field::NodeId;
use report::shown::YesNo;
use std::fmt::Display;
use std::io;
use std::io::Write;
use text::refusal;
use text::refusal::Refusal;
use tree::answers::Changed;
use tree::{Ui, UiLimits};

// The line of a call that answers nothing but whether it was accepted.
pub(crate) fn plain(out: &mut impl Write, verdict: Result<(), Refusal>) -> io::Result<()> {
    writeln!(out, "{}", refusal::number(verdict))
}

// The line of a call that answers a value, in whose place `none` stands where it is refused.
pub(crate) fn answer<T: Display + Drop>(
    out: &mut impl Write,
    value: Result<T, Refusal>,
    none: &str,
) -> io::Result<()> {
    match value {
        Ok(x) => writeln!(out, "0 {x}"),
        Err(word) => writeln!(out, "{} {none}", word.number()),
    }
}

// The line of a call that is never refused.
fn served<T: Display + Drop>(out: &mut impl Write, value: T) -> io::Result<()> {
    writeln!(out, "0 {value}")
}

// The calls that leave the tree as it is.
pub(crate) fn asked(out: &mut impl Write, tree: &Ui, reading: Reading) -> io::Result<()> {
    match reading {
        Reading::Text(d) => answer(out, tree.field_text(d).map(Typed), "0 -"),
        Reading::Cursor(d) => answer(out, tree.field_cursor(d), "0"),
        Reading::Metres(d) => answer(out, desk::metres(*tree, d), "0"),
        Reading::ConfirmedMetres(d) => answer(out, desk::confirmed_metres(*tree, d), "0"),
        Reading::MarkedText(d) => answer(out, desk::marked_text(*tree, d).map(Marked), "0 - 0 0"),
        Reading::Rect(d) => answer(out, tree.rect(d).map(Place), "0 0 0 0"),
        Reading::Live(d) => answer(out, tree.is_live(d).map(YesNo), "no"),
        Reading::First(d) => answer(out, tree.first_child(d).map(Node), "0 0"),
        Reading::Next(d) => answer(out, tree.next_sibling(d).map(Node), "0 0"),
        Reading::Absorb(h) => answer(out, desk::absorb(*tree, h).map(Sum), "0000000000000000"),
        Reading::Focus => served(out, Node(tree.interaction.focus)),
        Reading::Pressed => served(out, Node(tree.interaction.pressed)),
        Reading::State => served(out, Sum(digest::state(tree))),
    }
}

// A call of the tree, made apart from all others: a frame with room for what two of them hold would have it while either is made.
#[inline(never)]
fn apart<R, F: FnOnce(&mut Changed) -> R>(c: &mut Changed, call: F) -> R
    requires { F.IsAlwaysCallable call }
{
    call(c)
}

// A node more. It is asked for twice, once for the answer and once for the tree: a result with both would be one more tree on the stack.
pub(crate) fn inserted(out: &mut impl Write, c: &mut Changed, parent: NodeId) -> io::Result<()> {
    let made = apart(c, |c| c.tree.insert(parent).answer);
    apart(c, |c| c.tree = c.tree.insert(parent).tree);
    answer(out, made.map(|d| Node(Some(d))), "0 0")
}

// The oldest output is taken, likewise.
pub(crate) fn taken(out: &mut impl Write, c: &mut Changed) -> io::Result<()> {
    let oldest = apart(c, |c| desk::next_output(c.tree).answer);
    apart(c, |c| c.tree = desk::next_output(c.tree).tree);
    answer(out, oldest.map(Node), "0 0")
}

// The tree after a change, in the last one's place, and whether the change was accepted. After `pool` no patch waits.
pub(crate) fn changed(c: &mut Changed, change: Change, patches: &mut Patches) {
    match change {
        Change::New(nodes) => apart(c, |c| *c = Ui::new(UiLimits { nodes })),
        Change::Origin(nodes) => apart(c, |c| *c = Ui::at_origin(UiLimits { nodes })),
        Change::Remove(d) => apart(c, |c| *c = c.tree.remove(d)),
        Change::Style(d, style) => apart(c, |c| *c = c.tree.set_style(d, style)),
        Change::Table(d, table) => apart(c, |c| *c = c.tree.set_state_table(d, table)),
        Change::Pool => {
            let pool = *patches;
            apart(c, |c| *c = c.tree.set_patch_pool(pool.items, pool.count));
            patches.count = 0;
        }
        Change::Field(d) => apart(c, |c| *c = c.tree.make_field(d)),
        Change::Confirm(d) => apart(c, |c| *c = desk::confirm(c.tree, d)),
        Change::NextShip => apart(c, |c| *c = desk::next_ship(c.tree)),
        Change::Solve(view) => apart(c, |c| *c = c.tree.solve(view)),
        Change::Event(e) => apart(c, |c| *c = desk::handle(c.tree, e)),
    }
}

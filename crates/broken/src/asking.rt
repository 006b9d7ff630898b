// Every call of the documents that takes a tree, asked of one tree, and what its answer comes to.
use crate::good;
use crate::good::kept;
use arithmetic::fold::StateHash;
use damage::same;
use desk::UiEvent;
use field::NodeId;
use std::fmt;
use text::refusal::Refusal;
use tree::Ui;

#[derive(Clone, Copy, PartialEq, Eq)]
pub(crate) enum Call {
    Insert,
    Remove,
    SetStyle,
    SetStateTable,
    MakeField,
    FieldText,
    FieldCursor,
    Metres,
    Confirm,
    ConfirmedMetres,
    MarkedText,
    Rect,
    IsLive,
    FirstChild,
    NextSibling,
    SetPatchPool,
    Solve,
    HandleMove,
    HandleKey,
    NextOutput,
    Absorb,
    NextShip,
}

impl Call {
    // The calls that name a node.
    pub(crate) const NAMING: [Call; 15] = [
        Call::Insert,
        Call::Remove,
        Call::SetStyle,
        Call::SetStateTable,
        Call::MakeField,
        Call::FieldText,
        Call::FieldCursor,
        Call::Metres,
        Call::Confirm,
        Call::ConfirmedMetres,
        Call::MarkedText,
        Call::Rect,
        Call::IsLive,
        Call::FirstChild,
        Call::NextSibling,
    ];

    // The others.
    pub(crate) const NAMELESS: [Call; 7] = [
        Call::SetPatchPool,
        Call::Solve,
        Call::HandleMove,
        Call::HandleKey,
        Call::NextOutput,
        Call::Absorb,
        Call::NextShip,
    ];

    pub(crate) fn names_node(self) -> bool {
        Call::NAMING.contains(&self)
    }
}

impl fmt::Display for Call {
    fn fmt<W: fmt::Write>(&self, f: &mut fmt::Formatter<W>) -> fmt::Result {
        f.write_str(match *self {
            Call::Insert => "insert",
            Call::Remove => "remove",
            Call::SetStyle => "set_style",
            Call::SetStateTable => "set_state_table",
            Call::MakeField => "make_field",
            Call::FieldText => "field_text",
            Call::FieldCursor => "field_cursor",
            Call::Metres => "metres",
            Call::Confirm => "confirm",
            Call::ConfirmedMetres => "confirmed_metres",
            Call::MarkedText => "marked_text",
            Call::Rect => "rect",
            Call::IsLive => "is_live",
            Call::FirstChild => "first_child",
            Call::NextSibling => "next_sibling",
            Call::SetPatchPool => "set_patch_pool",
            Call::Solve => "solve",
            Call::HandleMove => "handle (a move)",
            Call::HandleKey => "handle (a key)",
            Call::NextOutput => "next_output",
            Call::Absorb => "absorb",
            Call::NextShip => "next_ship",
        })
    }
}

// A refusal's word, and whether the tree beside it is the one that was asked.
#[derive(Clone, Copy)]
pub(crate) struct Refused {
    pub word: Refusal,
    pub untouched: bool,
}

fn answer<T: Copy>(given: Result<T, Refusal>, untouched: bool) -> Result<(), Refused> {
    match given {
        Ok(_) => Ok(()),
        Err(word) => Err(Refused { word, untouched }),
    }
}

// Neither that makes a call is built into another function, so that no frame has room for what two calls hold.
#[inline(never)]
fn read<T: Copy, F: FnOnce(&Ui) -> Result<T, Refusal>>(u: &Ui, call: F) -> Result<(), Refused>
    requires { F.IsAlwaysCallable call }
{
    answer(call(u), true)
}

#[inline(never)]
fn changed<T: Copy, F: FnOnce(&mut Ui) -> Result<T, Refusal>>(
    u: &Ui,
    call: F,
) -> Result<(), Refused>
    requires { F.IsAlwaysCallable call }
{
    let mut next = *u;
    let given = call(&mut next);
    answer(given, same(u, &next))
}

// One call; those that name a node name d.
// Kept: a match on the enum, since a table would need a function for each call all the same, beside the enum that names and counts them.
pub(crate) fn ask(u: &Ui, call: Call, d: NodeId) -> Result<(), Refused> {
    match call {
        Call::Insert => changed(u, |t| kept(t.insert(d), t)),
        Call::Remove => changed(u, |t| kept(t.remove(d), t)),
        Call::SetStyle => changed(u, |t| kept(t.set_style(d, good::plain(65536, 65536)), t)),
        Call::SetStateTable => changed(u, |t| kept(t.set_state_table(d, [65535u16; 16]), t)),
        Call::MakeField => changed(u, |t| kept(t.make_field(d), t)),
        Call::FieldText => read(u, |t| t.field_text(d)),
        Call::FieldCursor => read(u, |t| t.field_cursor(d)),
        Call::Metres => read(u, |t| desk::metres(*t, d)),
        Call::Confirm => changed(u, |t| kept(desk::confirm(*t, d), t)),
        Call::ConfirmedMetres => read(u, |t| desk::confirmed_metres(*t, d)),
        Call::MarkedText => read(u, |t| desk::marked_text(*t, d)),
        Call::Rect => read(u, |t| t.rect(d)),
        Call::IsLive => read(u, |t| t.is_live(d)),
        Call::FirstChild => read(u, |t| t.first_child(d)),
        Call::NextSibling => read(u, |t| t.next_sibling(d)),
        Call::SetPatchPool => changed(u, |t| kept(t.set_patch_pool(good::patches(), 64), t)),
        Call::Solve => changed(u, |t| kept(t.solve(good::view()), t)),
        Call::HandleMove => changed(
            u,
            |t| kept(desk::handle(*t, UiEvent::PointerMoved { x: 1, y: 1 }), t),
        ),
        Call::HandleKey => changed(
            u,
            |t| kept(desk::handle(*t, UiEvent::TextEntered { ch: 65 }), t),
        ),
        Call::NextOutput => changed(u, |t| kept(desk::next_output(*t), t)),
        Call::Absorb => read(u, |t| desk::absorb(*t, StateHash::new())),
        Call::NextShip => changed(u, |t| kept(desk::next_ship(*t), t)),
    }
}

// One call, read from a line.
use crate::label;
use crate::styles::style;
use arithmetic::fold::StateHash;
use arrayvec::ArrayVec;
use desk::UiEvent;
use field::{EditOp, NodeId};
use report::words;
use report::words::number;
use tree::{StatePatch, Style, Viewport};

// What a line asks for.
#[derive(Drop)]
pub enum Call {
    Reading(Reading),
    Change(Change),
    // Two that change the tree, and answer more than whether they were accepted.
    Insert(NodeId),
    Output,
    // The others need no tree.
    Measure(ArrayVec<u8, 512>),
    Patch(StatePatch),
    Label(ArrayVec<u8, 512>),
    Lines(Lines),
}

// The calls that leave the tree as it is.
#[derive(Clone, Copy)]
pub enum Reading {
    Text(NodeId),
    Cursor(NodeId),
    Metres(NodeId),
    ConfirmedMetres(NodeId),
    MarkedText(NodeId),
    Rect(NodeId),
    Live(NodeId),
    First(NodeId),
    Next(NodeId),
    Focus,
    Pressed,
    Absorb(StateHash),
    State,
}

// The calls that change the tree, and answer whether they were accepted.
#[derive(Clone, Copy)]
pub enum Change {
    New(u32),
    Origin(u32),
    Remove(NodeId),
    Style(NodeId, Style),
    Table(NodeId, [u16; 16]),
    Pool,
    Field(NodeId),
    Confirm(NodeId),
    NextShip,
    Solve(Viewport),
    Event(UiEvent),
}

// How wide lines may be, and how many places are lent for where they start.
#[derive(Clone, Copy)]
pub struct Lines {
    pub width: u32,
    pub room: usize,
}

// ID: two words.
fn id(words: &[&[u8]]) -> Option<NodeId> {
    let [index, generation] = words else {
        return None;
    };
    Some(NodeId {
        index: number(index)?,
        generation: number(generation)?,
    })
}

fn reading_of(words: &[&[u8]]) -> Option<Reading> {
    match words {
        [b"text", node @ ..] => id(node).map(Reading::Text),
        [b"cursor", node @ ..] => id(node).map(Reading::Cursor),
        [b"metres", node @ ..] => id(node).map(Reading::Metres),
        [b"ramp", node @ ..] => id(node).map(Reading::ConfirmedMetres),
        [b"office", node @ ..] => id(node).map(Reading::MarkedText),
        [b"rect", node @ ..] => id(node).map(Reading::Rect),
        [b"live", node @ ..] => id(node).map(Reading::Live),
        [b"first", node @ ..] => id(node).map(Reading::First),
        [b"next", node @ ..] => id(node).map(Reading::Next),
        [b"focus"] => Some(Reading::Focus),
        [b"pressed"] => Some(Reading::Pressed),
        [b"absorb", sum] => Some(Reading::Absorb(StateHash {
            state: words::hash(sum)?,
        })),
        [b"state"] => Some(Reading::State),
        _ => None,
    }
}

// Sixteen words, a number each.
fn table_of(words: &[&[u8]]) -> Option<[u16; 16]> {
    if words.len() != 16 {
        return None;
    }
    let mut entries = [0u16; 16];
    for (entry, w) in entries.iter_mut().zip(words) {
        *entry = number(w)?;
    }
    Some(entries)
}

fn edit_of(w: &[u8]) -> Option<EditOp> {
    match w {
        b"backspace" => Some(EditOp::Backspace),
        b"delete" => Some(EditOp::Delete),
        b"left" => Some(EditOp::Left),
        b"right" => Some(EditOp::Right),
        b"home" => Some(EditOp::Home),
        b"end" => Some(EditOp::End),
        _ => None,
    }
}

fn event_of(words: &[&[u8]]) -> Option<UiEvent> {
    match words {
        [b"move", x, y] => Some(UiEvent::PointerMoved {
            x: number(x)?,
            y: number(y)?,
        }),
        [b"press"] => Some(UiEvent::PointerPressed),
        [b"release"] => Some(UiEvent::PointerReleased),
        [b"char", ch] => Some(UiEvent::TextEntered { ch: number(ch)? }),
        [b"edit", op] => Some(UiEvent::Edit { op: edit_of(op)? }),
        _ => None,
    }
}

fn change_of(words: &[&[u8]]) -> Option<Change> {
    match words {
        [b"new", limit] => number(limit).map(Change::New),
        [b"origin", limit] => number(limit).map(Change::Origin),
        [b"remove", node @ ..] => id(node).map(Change::Remove),
        [b"style", index, generation, worn @ ..] => {
            Some(Change::Style(id(&[index, generation])?, style(worn)?))
        }
        [b"table", index, generation, entries @ ..] => {
            Some(Change::Table(id(&[index, generation])?, table_of(entries)?))
        }
        [b"pool"] => Some(Change::Pool),
        [b"field", node @ ..] => id(node).map(Change::Field),
        [b"confirm", node @ ..] => id(node).map(Change::Confirm),
        [b"ship"] => Some(Change::NextShip),
        [b"solve", width, height] => Some(Change::Solve(Viewport {
            width: number(width)?,
            height: number(height)?,
        })),
        others => event_of(others).map(Change::Event),
    }
}

fn lines_of(width: &[u8], room: &[u8]) -> Option<Lines> {
    Some(Lines {
        width: number(width)?,
        room: number(room).filter(|n| *n <= label::ROOM)?,
    })
}

fn patch_of(touches: &[u8], words: &[&[u8]]) -> Option<StatePatch> {
    let touches_layout = match touches {
        b"0" => false,
        b"1" => true,
        _ => return None,
    };
    Some(StatePatch {
        style: style(words)?,
        touches_layout,
    })
}

fn call_of(words: &[&[u8]]) -> Option<Call> {
    match words {
        [b"insert", parent @ ..] => id(parent).map(Call::Insert),
        [b"output"] => Some(Call::Output),
        [b"measure", text] => words::hex(text).map(Call::Measure),
        [b"patch", touches, worn @ ..] => patch_of(touches, worn).map(Call::Patch),
        [b"label", text] => words::hex(text).map(Call::Label),
        [b"lines", width, room] => lines_of(width, room).map(Call::Lines),
        others => reading_of(others)
            .map(Call::Reading)
            .or_else(|| change_of(others).map(Call::Change)),
    }
}

// The most words of a call: a `style`.
const WORDS: usize = 22;

// The call that a line is, its newline not included; none where it is malformed.
pub(crate) fn read(line: &[u8]) -> Option<Call> {
    let none: &[u8] = &[];
    let mut words = [none; WORDS];
    let mut count = 0;
    for word in line.split(|b| *b == b' ') {
        *words.get_mut(count)? = word;
        count += 1;
    }
    call_of(words.get(..count)?)
}

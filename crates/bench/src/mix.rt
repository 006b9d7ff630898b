// Answers mixed into one number, and the fingerprint of a whole tree. The Rust driver mixes the same way.
use crate::shapes::{Shape, id};
use arithmetic::fold::StateHash;
use field::NodeId;
use text::refusal::{Refusal, number};
use tree::answers::FieldText;
use tree::{Rect, Ui};

// One number more, modulo 2^32.
pub(crate) fn mix(acc: u64, x: u64) -> u64 {
    (acc % 4294967296 * 1664525 + x % 4294967296 + 1013904223) % 4294967296
}

// A refusal's number, apart from what an accepted call gives.
pub(crate) fn refused(word: Refusal) -> u64 {
    u64::from(word.number()) * 16777216
}

pub(crate) fn verdict(v: Result<(), Refusal>) -> u64 {
    u64::from(number(v)) * 16777216
}

// A number that is not negative, else 0.
pub(crate) fn natural(x: i64) -> u64 {
    x.max(0).cast_unsigned()
}

pub(crate) fn node(d: NodeId) -> u64 {
    (d.generation % 65536) * 65536 + u64::from(d.index)
}

pub(crate) fn neighbour(found: Option<NodeId>) -> u64 {
    found.map_or(1, node)
}

pub(crate) fn rect(acc: u64, a: Result<Rect, Refusal>) -> u64 {
    match a {
        Ok(r) => [r.x, r.y, r.width, r.height]
            .iter()
            .fold(acc, |acc, side| mix(acc, natural(*side))),
        Err(word) => mix(acc, refused(word)),
    }
}

// The length of a text, or the word that refuses it, and its bytes, or zeros.
pub(crate) fn text(a: Result<FieldText, Refusal>) -> (u64, [u8; 64]) {
    match a {
        Ok(t) => {
            let bytes = t.bytes;
            (u64::from(t.len), bytes)
        }
        Err(word) => (refused(word), [0u8; 64]),
    }
}

// A text with all its bytes.
fn text_of(acc: u64, a: Result<FieldText, Refusal>) -> u64 {
    let (length, bytes) = text(a);
    bytes
        .iter()
        .fold(mix(acc, length), |acc, b| mix(acc, u64::from(*b)))
}

// Boxes, texts and the interaction of a tree: the boxes of the nodes that each slot got first, of which the dead refuse, and the texts of
// the nodes that have fields in some run, 4 to 11.
pub(crate) fn whole(u: &Ui, shape: Shape, acc: u64) -> u64 {
    let boxes = (0u32..128).fold(acc, |acc, k| rect(acc, u.rect(id(k))));
    let texts = (4u32..12).fold(boxes, |acc, k| text_of(acc, u.field_text(id(k))));
    let typed = text_of(texts, u.field_text(shape.focus()));
    let state = desk::absorb(*u, StateHash::new());
    mix(typed, state.unwrap_or_else(refused))
}

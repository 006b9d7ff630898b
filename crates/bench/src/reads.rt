// The kinds of call that read, each on two nodes in turn: the leaf in focus and the root; and the check that each makes.
use crate::kinds::Kind;
use crate::mix;
use crate::mix::{mix, natural, neighbour, refused};
use crate::shapes::Shape;
use arithmetic::fold::StateHash;
use field::NodeId;
use std::array;
use text::lines;
use tree::{Ui, rules};

// n turns, in each of which a call on one of the two nodes is mixed into what the last one left.
// Kept: `n` and `acc` apart: each call of the benchmark has other trees and nodes beside them, and C passes `n` alone.
fn turns<F: FnMut(u64, NodeId) -> u64>(shape: Shape, n: u32, acc: u64, mut turn: F) -> u64
    requires { F.IsAlwaysCallable turn }
{
    let nodes = [shape.focus(), Ui::root()];
    let mut all = acc;
    for i in 0..n {
        all = turn(all, nodes[i as usize % 2]);
    }
    all
}

// A text of 26 bytes, from another start each time. No tree is read.
fn measure(n: u32, acc: u64) -> u64 {
    let s = b"Draught 7.40, ramp 3.5, ok";
    (0..n).fold(acc, |acc, i| {
        let width = text::measure(&s[i as usize % 2..]);
        mix(acc, width.map_or_else(refused, natural))
    })
}

// A mooring order of 1,024 bytes: the same 128, eight times.
fn order() -> [u8; 1024] {
    let part =
        b"Berth 4, starboard side to. Two head lines and two stern lines, then springs. Draught 7.40 m, ramp at 3.5 m. Stand by at 16:30. ";
    array::from_fn(|i| part[i % 128])
}

// The order, from another start each time, and the whole buffer at the end. No tree is read.
fn break_lines(width: u32, n: u32, acc: u64) -> u64 {
    let s = order();
    let mut starts = [0u32; 128];
    let mut all = acc;
    for i in 0..n {
        let lines = lines::break_lines(&s[i as usize % 2..], width, &mut starts);
        all = mix(all, lines.map_or_else(refused, u64::from));
    }
    starts
        .iter()
        .fold(all, |acc, start| mix(acc, u64::from(*start)))
}

// The answers of n calls of a kind, mixed.
pub(crate) fn read(u: &Ui, shape: Shape, kind: Kind, n: u32, acc: u64) -> u64 {
    match kind {
        Kind::FieldText => turns(shape, n, acc, |acc, d| {
            let (length, bytes) = mix::text(u.field_text(d));
            mix(mix(acc, length), u64::from(bytes[0]))
        }),
        Kind::FieldCursor => turns(shape, n, acc, |acc, d| {
            mix(acc, u.field_cursor(d).map_or_else(refused, u64::from))
        }),
        Kind::Metres => turns(shape, n, acc, |acc, d| {
            mix(acc, desk::metres(*u, d).map_or_else(refused, u64::from))
        }),
        Kind::Rect => turns(shape, n, acc, |acc, d| mix::rect(acc, u.rect(d))),
        Kind::IsLive => turns(shape, n, acc, |acc, d| {
            mix(acc, u.is_live(d).map_or_else(refused, u64::from))
        }),
        Kind::FirstChild => turns(shape, n, acc, |acc, d| {
            mix(acc, u.first_child(d).map_or_else(refused, neighbour))
        }),
        Kind::NextSibling => turns(shape, n, acc, |acc, d| {
            mix(acc, u.next_sibling(d).map_or_else(refused, neighbour))
        }),
        // Each fold starts where the last one ended.
        Kind::Absorb => turns(shape, n, acc, |acc, _| {
            desk::absorb(*u, StateHash { state: acc }).unwrap_or_else(refused)
        }),
        Kind::Measure => measure(n, acc),
        Kind::NarrowLines => break_lines(120, n, acc),
        Kind::WideLines => break_lines(400, n, acc),
        Kind::Check => turns(
            shape,
            n,
            acc,
            |acc, _| mix(acc, u64::from(rules::broken(u))),
        ),
        _ => acc,
    }
}

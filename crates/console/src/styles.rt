// STYLE: nineteen words.
use report::words::number;
use tree::{Align, Direction, Edges, Size, Style};

fn direction(w: &[u8]) -> Option<Direction> {
    match w {
        b"row" => Some(Direction::Row),
        b"column" => Some(Direction::Column),
        _ => None,
    }
}

fn size(w: &[u8]) -> Option<Size> {
    match w {
        b"auto" => Some(Size::Auto),
        _ => number(w).map(Size::Px),
    }
}

fn align(w: &[u8]) -> Option<Align> {
    match w {
        b"start" => Some(Align::Start),
        b"center" => Some(Align::Center),
        b"end" => Some(Align::End),
        _ => None,
    }
}

// Four words.
fn edges(words: &[&[u8]]) -> Option<Edges> {
    let [left, right, top, bottom] = words else {
        return None;
    };
    Some(Edges {
        left: number(left)?,
        right: number(right)?,
        top: number(top)?,
        bottom: number(bottom)?,
    })
}

// Four words, a byte each.
fn background(words: &[&[u8]]) -> Option<[u8; 4]> {
    let [a, b, c, d] = words else {
        return None;
    };
    Some([number(a)?, number(b)?, number(c)?, number(d)?])
}

// The words of a STYLE, in order, and no more.
pub(crate) fn style(words: &[&[u8]]) -> Option<Style> {
    if words.len() != 19 {
        return None;
    }
    Some(Style {
        direction: direction(words[0])?,
        width: size(words[1])?,
        height: size(words[2])?,
        margin: edges(&words[3..7])?,
        padding: edges(&words[7..11])?,
        gap: number(words[11])?,
        grow: number(words[12])?,
        justify: align(words[13])?,
        align_cross: align(words[14])?,
        background: background(&words[15..])?,
    })
}

// The fields that are asked: some that keep the rules, and one or more that break each rule.
use crate::lending::all_asked;
use field::{EditOp, Field, Mark, NodeId};
use std::io;

// A field of a node, with a character of each size, ten bytes in all, and what an old text left behind them. The caret is behind the
// second character.
fn four() -> Field {
    let owner = Some(NodeId {
        index: 3,
        generation: 7,
    });
    let f = Field {
        owner,
        bytes: [0xb5; 64],
        ..Field::empty()
    };
    let g = f.insert(0x61).insert(0xe9).insert(0x20ac).insert(0x1f600);
    g.edit(EditOp::Left).edit(EditOp::Left)
}

// A field of nobody with a letter `n` times, the caret behind.
fn letters(n: u8) -> Field {
    Field {
        bytes: [0x61; 64],
        len: n,
        cursor: n,
        ..Field::empty()
    }
}

// A field of nobody with as much of the text "7.4" as the length says, the caret behind its first character, and a mark.
fn marked(len: u8, mark: Mark) -> Field {
    let f = Field::empty().insert(0x37).insert(0x2e).insert(0x34);
    Field {
        len,
        cursor: len.min(1),
        mark,
        ..f
    }
}

fn counted(len: u8, cursor: u8) -> Field {
    let mut f = four();
    f.len = len;
    f.cursor = cursor;
    f
}

// The field with three other bytes first.
fn begun(first: [u8; 3]) -> Field {
    let mut f = counted(10, 0);
    f.bytes[..3].copy_from_slice(&first);
    f
}

// Fields that keep the rules.
pub(crate) fn kept(rt: &impl Print) -> io::Result<bool> {
    let fields = [
        ("empty", Field::empty()),
        ("four characters", four()),
        ("caret at the start", counted(10, 0)),
        ("caret at the end", counted(10, 10)),
        ("61 bytes", letters(61)),
        ("64 bytes", letters(64)),
        ("typed text that is no metres", marked(2, Mark::Typed)),
        ("confirmed metres", marked(3, Mark::Confirmed)),
    ];
    all_asked(rt, true, &fields)
}

// Fields that break the rules: whose length or caret is out of its place, whose text is not UTF-8, and whose confirmed text is no metres.
pub(crate) fn broken(rt: &impl Print) -> io::Result<bool> {
    let fields = [
        ("length 65", letters(65)),
        ("length 255", counted(255, 0)),
        ("caret past the length", counted(10, 11)),
        ("caret past 64", counted(10, 200)),
        ("caret inside a character of two bytes", counted(10, 2)),
        ("caret inside a character of four bytes", counted(10, 9)),
        ("last character cut short", counted(9, 3)),
        ("a byte that starts no character", begun([0x80, 0x61, 0x61])),
        ("an overlong form", begun([0xc0, 0xaf, 0x61])),
        ("a surrogate", begun([0xed, 0xa0, 0x80])),
        ("confirmed with no text", marked(0, Mark::Confirmed)),
        (
            "confirmed text that is no metres",
            marked(2, Mark::Confirmed),
        ),
    ];
    all_asked(rt, false, &fields)
}

// Edits of a field: characters of each size put into full fields, every edit at every place, and what becomes of the mark.
ghost use Rattle.std.specs.Prelude.{◌<◌};

use crate::lines::group;
use crate::show::heading;
use crate::sums;
use field::{EditOp, Edited, Field, Mark};
use std::fmt::Display;
use std::{fmt, io, str};
use text::refusal;

fn mark_name(mark: Mark) -> &'static str {
    match mark {
        Mark::Untouched => "untouched",
        Mark::Typed => "typed",
        Mark::Confirmed => "confirmed",
    }
}

// Length, caret, mark, and the sum of all 64 bytes.
#[derive(Drop)]
struct State(Field);

impl Display for State {
    fn fmt<W: fmt::Write>(&self, f: &mut fmt::Formatter<W>) -> fmt::Result {
        let State(own) = self;
        let sum = sums::sum_of(&own.bytes);
        let mark = mark_name(own.mark);
        write!(
            f,
            "length {}, caret {}, mark {mark}, sum {sum:016x}",
            own.len, own.cursor
        )
    }
}

// What an edit leaves: the counts, and the text.
fn outcome(rt: &impl Print, f: Field) -> io::Result<()> {
    let text = &f.bytes[..usize::from(f.len).min(64)];
    let shown = str::from_utf8(text).unwrap_or("no text");
    println!(rt; ": {}, \"{shown}\"", State(f))
}

// The field with a character more of each size, ten bytes in all.
fn with_four(f: Field, i: u32) -> Field
    requires { i < 16 }
{
    f.insert(0x61 + i)
        .insert(0xe9 + i)
        .insert(0x20ac + i)
        .insert(0x1f600 + i)
}

// Ten bytes: a character of each size.
fn ten() -> Field {
    with_four(Field::empty(), 0)
}

// 60 bytes, six characters of each size, and an x `more` times.
fn filled(more: u32) -> Field {
    let mut f = Field::empty();
    for i in 0..6 {
        f = with_four(f, i);
    }
    (0..more).fold(f, |f, _| f.insert(0x78))
}

// The field with the caret n characters from its start.
fn at(f: Field, n: u32) -> Field {
    (0..n).fold(f.edit(EditOp::Home), |f, _| f.edit(EditOp::Right))
}

fn insertion(rt: &impl Print, f: Field, ch: u32) -> io::Result<()> {
    print!(rt; "insert {ch:06x} at {} of {}", f.cursor, f.len)?;
    outcome(rt, f.insert(ch))
}

// A character of each size, put in at the start, in the middle and at the end.
fn each_place(rt: &impl Print, f: Field) -> io::Result<()> {
    for g in [f.edit(EditOp::Home), at(f, 12), f.edit(EditOp::End)] {
        insertion(rt, g, 0x79)?;
        insertion(rt, g, 0xdf)?;
        insertion(rt, g, 0x4e2d)?;
        insertion(rt, g, 0x10348)?;
    }
    Ok(())
}

fn insertions(rt: &impl Print) -> io::Result<()> {
    group(
        rt,
        "Characters of each size, put into fields of 61 to 64 bytes",
        &[1, 2, 3, 4],
        |more| each_place(rt, filled(more)),
    )
}

fn no_characters(rt: &impl Print) -> io::Result<()> {
    group(
        rt,
        "Codes that are no characters",
        &[0xd800, 0xdbff, 0xdc00, 0xdfff, 0x110000, 0xffffffff],
        |code| insertion(rt, at(ten(), 2), code),
    )
}

// Every edit, and the names that they are written by.
const EDITS: [(EditOp, &str); 6] = [
    (EditOp::Backspace, "backspace"),
    (EditOp::Delete, "delete"),
    (EditOp::Left, "left"),
    (EditOp::Right, "right"),
    (EditOp::Home, "home"),
    (EditOp::End, "end"),
];

fn edit(rt: &impl Print, f: Field, name: &str, op: EditOp) -> io::Result<()> {
    print!(rt; "{name} at {} of {}", f.cursor, f.len)?;
    outcome(rt, f.edit(op))
}

fn each_edit(rt: &impl Print, f: Field) -> io::Result<()> {
    for (op, name) in EDITS {
        edit(rt, f, name, op)?;
    }
    Ok(())
}

fn small(rt: &impl Print) -> io::Result<()> {
    heading(
        rt,
        "Every edit of an empty field, and of one with a character of each size",
    )?;
    each_edit(rt, Field::empty())?;
    for n in 0..=4 {
        each_edit(rt, at(ten(), n))?;
    }
    Ok(())
}

fn full(rt: &impl Print) -> io::Result<()> {
    group(
        rt,
        "Every edit of a full field",
        &[0, 12, 13, 14, 15, 28],
        |n| each_edit(rt, at(filled(4), n)),
    )
}

// One edit, 29 times in a row, until nothing is left.
fn repeated(rt: &impl Print, op: EditOp, name: &str, start: Field) -> io::Result<()> {
    let mut f = start;
    for _ in 0..29 {
        edit(rt, f, name, op)?;
        f = f.edit(op);
    }
    Ok(())
}

fn emptied(rt: &impl Print) -> io::Result<()> {
    let f = filled(4);
    heading(rt, "A full field, emptied from its end")?;
    repeated(rt, EditOp::Backspace, "backspace", f)?;
    heading(rt, "A full field, emptied from its start")?;
    repeated(rt, EditOp::Delete, "delete", f.edit(EditOp::Home))
}

// A draught with so many spaces before it, which are no part of its number.
fn draught(spaces: u32) -> Field {
    let blank = (0..spaces).fold(Field::empty(), |f, _| f.insert(0x20));
    blank.insert(0x37).insert(0x2e).insert(0x34)
}

// Every edit, a character, and a code that is none.
fn each_key(rt: &impl Print, f: Field) -> io::Result<()> {
    each_edit(rt, f)?;
    insertion(rt, f, 0x35)?;
    insertion(rt, f, 0xd800)
}

// The spaces before a draught, and where the caret stands: at both ends and between, with room for more and with none.
const PLACES: [(u32, u32); 6] = [(0, 0), (0, 1), (0, 3), (61, 0), (61, 62), (61, 64)];

fn marks(rt: &impl Print) -> io::Result<()> {
    group(
        rt,
        "Every edit of a confirmed text",
        &PLACES,
        |(spaces, n)| each_key(rt, at(draught(spaces), n).confirmed()),
    )?;
    group(
        rt,
        "Every edit of an untouched text",
        &PLACES,
        |(spaces, n)| each_key(rt, at(draught(spaces), n).confirmed().unconfirmed()),
    )
}

fn answer(rt: &impl Print, name: &str, asked: &str, e: Edited) -> io::Result<()> {
    let number = refusal::number(e.verdict);
    println!(rt; "{name}, {asked} gives {number}: {}", State(e.field))
}

// What a caller is answered who asks for an edit and for a character, by value and lent, and for metres.
fn asked(rt: &impl Print, name: &str, f: Field) -> io::Result<()> {
    answer(rt, name, "left", f.try_edit(EditOp::Left))?;
    answer(rt, name, "left when lent", f.edit_here(EditOp::Left))?;
    answer(rt, name, "insert", f.try_insert(0x79))?;
    answer(rt, name, "insert when lent", f.insert_here(0x79))?;
    println!(rt; "{name}, metres gives {}", refusal::number(f.metres()))
}

// The field with a character of each size and these counts.
fn counted(len: u8, cursor: u8) -> Field {
    Field {
        len,
        cursor,
        ..ten()
    }
}

fn broken(rt: &impl Print) -> io::Result<()> {
    heading(rt, "Fields that break the rules, and some that keep them")?;
    asked(rt, "sound", counted(10, 3))?;
    asked(rt, "length above 64", counted(65, 3))?;
    asked(rt, "caret past the length", counted(10, 11))?;
    asked(rt, "caret inside a character", counted(10, 2))?;
    asked(rt, "text cut short", counted(9, 3))?;
    asked(rt, "confirmed metres", draught(0).confirmed())?;
    asked(rt, "confirmed with no text", Field::empty().confirmed())?;
    asked(rt, "confirmed text that is no metres", ten().confirmed())
}

pub(crate) fn run(rt: &impl Print) -> io::Result<()> {
    insertions(rt)?;
    no_characters(rt)?;
    small(rt)?;
    full(rt)?;
    emptied(rt)?;
    marks(rt)?;
    broken(rt)
}

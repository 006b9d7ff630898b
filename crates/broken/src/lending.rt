// Every edit of one field, lent and by value, and what the two answers come to.
use field::{EditOp, Edited, Field};
use std::io;
use text::refusal::{Refusal, number};

const EDITS: [EditOp; 6] = [
    EditOp::Backspace,
    EditOp::Delete,
    EditOp::Left,
    EditOp::Right,
    EditOp::Home,
    EditOp::End,
];

// A character of each size, and two codes that are none.
const CODES: [u32; 6] = [0x79, 0xe9, 0x20ac, 0x1f600, 0xd800, 0xffffffff];

// Kept: the words of these lines; that the console reads the same ones is its language, and no call of the library has words.
fn name_of(op: EditOp) -> &'static str {
    match op {
        EditOp::Backspace => "backspace",
        EditOp::Delete => "delete",
        EditOp::Left => "left",
        EditOp::Right => "right",
        EditOp::Home => "home",
        EditOp::End => "end",
    }
}

// What the rules ask of a field that keeps them, or of one that is broken.
fn due(sound: bool, before: Field, edited: Field) -> Edited {
    if sound {
        return Edited {
            verdict: Ok(()),
            field: edited,
        };
    }
    Edited {
        verdict: Err(Refusal::Broken),
        field: before,
    }
}

fn word(yes: bool, one: &'static str, other: &'static str) -> &'static str {
    if yes { one } else { other }
}

// The rest of the line that began with the field and the edit; whether all is right.
fn compared(
    rt: &impl Print,
    sound: bool,
    before: Field,
    edited: Field,
    lent: Edited,
    valued: Edited,
) -> io::Result<bool> {
    let alike = lent == valued;
    let right = lent == due(sound, before, edited);
    print!(rt;
        ": {}, {}",
        number(lent.verdict),
        word(lent.field == before, "as it was", "edited")
    )?;
    print!(rt; "; by value {}", word(alike, "alike", "OTHERWISE"))?;
    println!(rt;
        "; {}",
        word(right, "as the rules ask", "AGAINST the rules")
    )?;
    Ok(alike & right)
}

// Kept: `name`, `sound` and `f` apart: three functions pass them on, and a row of a table of samples is what they come from.
fn each_edit(rt: &impl Print, name: &str, sound: bool, f: Field) -> io::Result<bool> {
    let mut right = true;
    for op in EDITS {
        print!(rt; "{name}, {}", name_of(op))?;
        right &= compared(rt, sound, f, f.edit(op), f.edit_here(op), f.try_edit(op))?;
    }
    Ok(right)
}

fn each_insert(rt: &impl Print, name: &str, sound: bool, f: Field) -> io::Result<bool> {
    let mut right = true;
    for ch in CODES {
        print!(rt; "{name}, insert {ch}")?;
        right &= compared(
            rt,
            sound,
            f,
            f.insert(ch),
            f.insert_here(ch),
            f.try_insert(ch),
        )?;
    }
    Ok(right)
}

// Every edit of a field, of which the caller says whether it keeps the rules.
pub(crate) fn asked(rt: &impl Print, name: &str, sound: bool, f: Field) -> io::Result<bool> {
    let edits = each_edit(rt, name, sound, f)?;
    let inserts = each_insert(rt, name, sound, f)?;
    Ok(edits & inserts)
}

// The same of fields with their names.
pub(crate) fn all_asked(
    rt: &impl Print,
    sound: bool,
    fields: &[(&str, Field)],
) -> io::Result<bool> {
    let mut right = true;
    for (name, f) in fields {
        right &= asked(rt, name, sound, *f)?;
    }
    Ok(right)
}

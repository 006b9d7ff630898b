// Texts broken into lines: fits to the pixel, spaces, characters of several bytes, and each refusal before the next.
use crate::lines::group;
use crate::show::{Spaced, heading};
use std::fmt::Display;
use std::io;
use text::lines::break_lines;
use text::refusal;

// Kept: `name`, `s`, `width` and `room` apart, since rows of a table come as four values and three functions hand them on.
// A text broken into lines, with some places lent: what is asked, the number that refuses it or 0, and how many lines there are.
fn asked<T: Display + Drop>(
    rt: &impl Print,
    name: T,
    s: &[u8],
    width: u32,
    lent: &mut [u32],
) -> io::Result<()> {
    let room = lent.len();
    let answer = break_lines(s, width, lent);
    let number = refusal::number(answer);
    let count = answer.unwrap_or(0);
    print!(rt; "{name}, width {width}, room {room}: {number}, {count}, places")
}

// The same with up to 32 places, and each of them, which held 9999.
fn answered<T: Display + Drop>(
    rt: &impl Print,
    name: T,
    s: &[u8],
    width: u32,
    room: usize,
) -> io::Result<()> {
    let mut starts = [9999u32; 32];
    let lent = &mut starts[..room.min(32)];
    asked(rt, name, s, width, lent)?;
    for start in lent.iter() {
        print!(rt; " {start}")?;
    }
    println!(rt)
}

// Texts, each with a width and a room.
fn broken(rt: &impl Print, name: &str, all: &[(&str, u32, usize)]) -> io::Result<()> {
    group(rt, name, all, |(s, width, room)| {
        answered(rt, format_args!("\"{s}\""), s.as_bytes(), width, room)
    })
}

// A text too long to be shown: of its places the first, the last that 1,025 lines have, and the one behind it.
fn long(rt: &impl Print, name: &str, s: &[u8], width: u32, room: usize) -> io::Result<()> {
    let mut starts = [9999u32; 1026];
    asked(rt, name, s, width, &mut starts[..room.min(1026)])?;
    println!(rt; " {} .. {} {}", starts[0], starts[1024], starts[1025])
}

// A mooring order.
const ORDER: &str =
    "MV Vega: berth at Quai Érard, starboard side to. Two head lines and two stern lines ashore, \
    then the springs. Draught 7.40 m, ramp 3.5 m. Keep the ramp up until 16:30.";

fn order(rt: &impl Print) -> io::Result<()> {
    broken(
        rt,
        "Lines: the number of the answer, how many there are, and the lent places; a mooring order",
        &[
            (ORDER, 120, 12),
            (ORDER, 200, 12),
            (ORDER, 4294967295, 2),
            (ORDER, 54, 32),
            (ORDER, 53, 3),
            (ORDER, 120, 10),
            (ORDER, 120, 9),
        ],
    )
}

fn fits(rt: &impl Print) -> io::Result<()> {
    broken(
        rt,
        "Lines: exact fits, and a pixel less",
        &[
            ("Hi there", 45, 3),
            ("Hi there", 44, 3),
            ("Hi there", 29, 3),
            ("Hi there", 28, 3),
            ("there Hi", 28, 3),
            ("Hi", 12, 3),
            ("Hi", 11, 3),
            ("a b c d", 18, 5),
            ("a b c d", 17, 5),
            ("a b c d", 29, 5),
        ],
    )
}

fn spaces(rt: &impl Print) -> io::Result<()> {
    broken(
        rt,
        "Lines: no text, and spaces doubled, in front and behind",
        &[
            ("", 0, 2),
            (" ", 0, 3),
            (" ", 3, 3),
            (" ", 4, 3),
            ("   ", 0, 5),
            ("   ", 8, 5),
            ("   ", 12, 5),
            (" Hi", 16, 3),
            (" Hi", 15, 3),
            ("Hi ", 16, 3),
            ("Hi ", 15, 3),
            ("Hi  Hi", 32, 4),
            ("Hi  Hi", 31, 4),
            ("Hi  Hi", 15, 4),
        ],
    )
}

fn characters(rt: &impl Print) -> io::Result<()> {
    broken(
        rt,
        "Lines: places are counted in bytes, and only a space breaks",
        &[
            ("é€ 😀", 25, 3),
            ("é€ 😀", 24, 3),
            ("é€ 😀", 13, 3),
            ("a\u{a0}b", 21, 3),
            ("a\u{a0}b", 20, 3),
            ("a\tb-c", 32, 3),
            ("a\tb-c", 31, 3),
        ],
    )
}

// The first two are not UTF-8, and shown in base sixteen.
fn refusals(rt: &impl Print) -> io::Result<()> {
    heading(
        rt,
        "Lines: refused, the first reason first, and nothing written",
    )?;
    let cut = b"Hi\xff";
    answered(rt, format_args!("bytes{}", Spaced(cut)), cut, 0, 0)?;
    let lead = b"Hi \xc3";
    answered(rt, format_args!("bytes{}", Spaced(lead)), lead, 11, 2)?;
    let hi = "\"Hi there\"";
    answered(rt, hi, b"Hi there", 28, 1)?;
    answered(rt, hi, b"Hi there", 44, 1)?;
    answered(rt, hi, b"Hi there", 44, 0)?;
    answered(rt, "\"\"", b"", 0, 0)
}

fn most(rt: &impl Print) -> io::Result<()> {
    heading(rt, "Lines: as many bytes as there may be, and one more")?;
    let spaces = [b' '; 1025];
    long(rt, "1024 spaces", &spaces[..1024], 0, 1025)?;
    long(rt, "1024 spaces", &spaces[..1024], 0, 1026)?;
    long(rt, "1024 spaces", &spaces[..1024], 0, 1024)?;
    long(rt, "1024 spaces", &spaces[..1024], 4095, 1026)?;
    long(rt, "1024 spaces", &spaces[..1024], 4096, 1026)?;
    long(rt, "1025 spaces", &spaces, 0, 1026)?;
    let mut letters = [b'i'; 1025];
    long(rt, "1024 letters i", &letters[..1024], 3072, 1026)?;
    long(rt, "1024 letters i", &letters[..1024], 3071, 1026)?;
    long(rt, "1025 letters i", &letters, 0, 0)?;
    letters[1024] = 0xff;
    long(rt, "1024 letters i and a byte ff", &letters, 0, 0)
}

pub(crate) fn run(rt: &impl Print) -> io::Result<()> {
    order(rt)?;
    fits(rt)?;
    spaces(rt)?;
    characters(rt)?;
    refusals(rt)?;
    most(rt)
}
